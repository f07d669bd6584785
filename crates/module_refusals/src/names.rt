//! The names of packages.

ghost use Rattle.std.specs.Prelude.{◌≡◌, ◌<◌, ◌≤◌, IfOk, length, slice_index_or};
ghost use Rattle.go_tree.specs.declared.tokens.Token.{Token};
ghost use Rattle.go_tree.specs.declared.spans.Span.{Span};
ghost use Rattle.go_tree.specs.File.{File};
ghost use Rattle.run_rules.specs.Inlining.{IsSourceFile};
ghost use Rattle.module_refusals.specs.Told.{NamesPackage};

use go_scan::{Tokens, scan};
use go_tree::{MAX_FILE_BYTES, Name, NoMemory};
use std::alloc::{AllocError, Global};

/// How the second token is spelled.
fn second_word(tokens: &Tokens) -> &[u8]
    requires { 1 < length tokens.now.items }
    ensures { (d : Token) → (slice_index_or tokens.now.items 1 d).spelling ≡ result.now }
{
    tokens.items()[1].spelling.items()
}

/// The name in the package clause, which is the second token of a source file. A source file has tokens, so memory is
/// all that can be wanting.
pub(crate) fn package_name(alloc: Global, text: &[u8]) -> Result<Name, NoMemory>
    requires small { length text.now ≤ MAX_FILE_BYTES }
    requires source { (tree : File Span) × IsSourceFile text.now tree }
    ensures { IfOk result (NamesPackage text.now) }
{
    let Ok(tokens) = scan(alloc, text) else {
        return Err(AllocError);
    };
    let name = Name::copied(alloc, second_word(&tokens))?;
    Ok(name)
}
