//! Type declarations (Go specification, Type declarations).

ghost use Rattle.std.specs.Prelude.{◌≡◌, map};
ghost use Rattle.go_tree.specs.View.{name_at_of};
ghost use Rattle.go_tree.specs.FileView.{decl_of, type_spec_of};
ghost use Rattle.go_productions.specs.Cursors.{ahead};
ghost use Rattle.go_read.specs.SpellsSpans.{span_to};
ghost use Rattle.go_read.specs.Goals.{read_type_spec, read_type_specs};
ghost use Rattle.go_read.specs.Reading.{at};
ghost use Rattle.go_productions.specs.Answers.{Gives, Shorter};
ghost use Rattle.go_parse.specs.Parts.{closed, grouped_types_at, is_equals, single_type_at, type_after_at};
ghost use Rattle.go_parse.specs.Parts.{type_decl_at};

use crate::imports::after_spec;
use go_productions::{Cursor, Reading, name, type_expr};
use go_tree::go_words::Terminal;
use go_tree::{Decl, NameAt, TypeDecl, TypeSpec, TypeSpecList};

/// The type of a spec that begins at `whole`, after its name.
fn spec_type<'a>(
    whole: Cursor,
    name: NameAt,
    alias: bool,
    tokens: Cursor<'a>,
) -> Reading<'a, TypeSpec>
    ensures gives { Gives type_spec_of result
        (type_after_at (ahead whole.entry) (name_at_of name) alias (ahead tokens.entry)) }
    ensures shorter { Shorter result tokens.entry }
{
    let Some((of, after)) = type_expr(tokens)? else {
        return Ok(None);
    };
    let span = whole.span_to(after);
    let spec = TypeSpec {
        span,
        name,
        alias,
        of,
    };
    Ok(Some((spec, after)))
}

/// Whether it is `=`.
fn is_equals(terminal: Terminal) -> bool
    ensures { result ≡ is_equals terminal }
{
    matches!(terminal, Terminal::Assign(None))
}

/// A name and its type, with `=` between them for an alias.
fn type_spec<'a>(tokens: Cursor<'a>) -> Reading<'a, TypeSpec>
    ensures gives { Gives type_spec_of result
        (at span_to read_type_spec (ahead tokens.entry)) }
    ensures shorter { Shorter result tokens.entry }
{
    let Terminal::Ident = tokens.first() else {
        return Ok(None);
    };
    let name = name(tokens)?;
    let after = tokens.rest();
    let alias = is_equals(after.first());
    if alias {
        spec_type(tokens, name, true, after.rest())
    } else {
        spec_type(tokens, name, false, after)
    }
}

/// The specs of a group, up to the parenthesis that ends it.
fn type_group<'a>(tokens: Cursor<'a>) -> Reading<'a, TypeSpecList>
    ensures gives { Gives (map type_spec_of) result
        (closed (at span_to read_type_specs (ahead tokens.entry))) }
    ensures shorter { Shorter result tokens.entry }
{
    let mut specs = Vec::new(tokens.room.alloc);
    let mut left = tokens;
    'specs: loop {
        if let Terminal::EndParen = left.first() {
            return Ok(Some((TypeSpecList::of(specs), left.rest())));
        }
        let Some((spec, after)) = type_spec(left)? else {
            return Ok(None);
        };
        specs.push(spec)?;
        let Some(next) = after_spec(after) else {
            return Ok(None);
        };
        left = next;
    }
}

/// The group of types whose declaration begins at `whole`.
pub(crate) fn grouped_types<'a>(whole: Cursor, tokens: Cursor<'a>) -> Reading<'a, Decl>
    ensures gives { Gives decl_of result
        (grouped_types_at (ahead whole.entry) (ahead tokens.entry)) }
    ensures shorter { Shorter result tokens.entry }
{
    let Some((specs, after)) = type_group(tokens)? else {
        return Ok(None);
    };
    let span = whole.span_to(after);
    let decl = TypeDecl {
        span,
        grouped: true,
        specs,
    };
    Ok(Some((Decl::Types(decl), after)))
}

/// The one type whose declaration begins at `whole`.
pub(crate) fn single_type<'a>(whole: Cursor, tokens: Cursor<'a>) -> Reading<'a, Decl>
    ensures gives { Gives decl_of result
        (single_type_at (ahead whole.entry) (ahead tokens.entry)) }
    ensures shorter { Shorter result tokens.entry }
{
    let Some((spec, after)) = type_spec(tokens)? else {
        return Ok(None);
    };
    let specs = TypeSpecList::of(vec![in tokens.room.alloc; spec]?);
    let span = whole.span_to(after);
    let decl = TypeDecl {
        span,
        grouped: false,
        specs,
    };
    Ok(Some((Decl::Types(decl), after)))
}

/// The declaration of one type or of a group, whose first token is its keyword.
pub(crate) fn type_decl<'a>(tokens: Cursor<'a>) -> Reading<'a, Decl>
    ensures gives { Gives decl_of result
        (type_decl_at (ahead tokens.entry)) }
    ensures shorter { Shorter result tokens.entry }
{
    let inner = tokens.rest();
    if let Terminal::Paren = inner.first() {
        grouped_types(tokens, inner.rest())
    } else {
        single_type(tokens, inner)
    }
}
