//! Declarations of the package block (Go specification, Declarations and scope).

ghost use Rattle.go_tree.specs.FileView.{decl_of};
ghost use Rattle.go_productions.specs.Cursors.{ahead};
ghost use Rattle.go_read.specs.SpellsSpans.{span_to};
ghost use Rattle.go_read.specs.Goals.{read_top};
ghost use Rattle.go_read.specs.Reading.{at};
ghost use Rattle.go_productions.specs.Answers.{Gives, Shorter};

use crate::functions::func_decl;
use crate::types::type_decl;
use go_productions::{Cursor, Reading};
use go_statements::{const_decl, var_decl};
use go_tree::Decl;
use go_tree::go_words::Terminal;

/// A declaration of the package block.
pub(crate) fn decl<'a>(tokens: Cursor<'a>) -> Reading<'a, Decl>
    ensures gives { Gives decl_of result (at span_to read_top (ahead tokens.entry)) }
    ensures shorter { Shorter result tokens.entry }
{
    match tokens.first() {
        Terminal::Const => const_decl(tokens),
        Terminal::Var => var_decl(tokens),
        Terminal::Type => type_decl(tokens),
        Terminal::Func => func_decl(tokens),
        _ => Ok(None),
    }
}
