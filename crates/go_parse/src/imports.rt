//! Import declarations (Go specification, Import declarations).

ghost use Rattle.std.specs.Prelude.{◌≡◌, ◌≤◌, IfOk, IfSome, length, map};
ghost use Rattle.std.specs.Option.{option_map};
ghost use Rattle.go_tree.specs.View.{name_at_of};
ghost use Rattle.go_tree.specs.FileView.{import_decl_of, import_spec_of};
ghost use Rattle.go_productions.specs.Cursors.{ahead};
ghost use Rattle.go_read.specs.SpellsSpans.{span_to};
ghost use Rattle.go_tree.specs.GoWords.Texts.{text_value};
ghost use Rattle.go_read.specs.Goals.{read_import, read_import_spec, read_import_specs};
ghost use Rattle.go_read.specs.Reading.{at};
ghost use Rattle.go_tree.specs.declared.go_words.terminals.Terminal.TheVariants as terminal;
ghost use Rattle.go_productions.specs.Terminals.{first_of, spelling_of};
ghost use Rattle.go_productions.specs.Answers.{Gives, Shorter};
ghost use Rattle.go_parse.specs.Texts.{HasTexts};
ghost use Rattle.go_parse.specs.Parts.{closed, grouped_import_at, path_at, single_import_at, spec_end};

use go_productions::{Cursor, Reading, name};
use go_tree::go_literals::string_value;
use go_tree::go_words::Terminal;
use go_tree::{ImportDecl, ImportSpec, ImportSpecList, NameAt, NoMemory, Text};

/// The value of the string literal that stands first.
fn text(tokens: Cursor) -> Result<Text, NoMemory>
    requires texts { HasTexts (ahead tokens) }
    requires stands { first_of (ahead tokens) ≡ terminal.StrLit }
    ensures { IfOk result (λ t. t ≡ text_value (spelling_of (ahead tokens.entry))) }
{
    string_value(tokens.room.alloc, tokens.spelling())
}

/// The path of an import that begins at `whole`, after its name.
fn import_path<'a>(
    whole: Cursor,
    name: Option<NameAt>,
    tokens: Cursor<'a>,
) -> Reading<'a, ImportSpec>
    requires { HasTexts (ahead tokens) }
    ensures gives { Gives import_spec_of result
        (path_at (ahead whole.entry) (option_map name_at_of name) (ahead tokens.entry)) }
    ensures shorter { Shorter result tokens.entry }
{
    let Terminal::StrLit = tokens.first() else {
        return Ok(None);
    };
    let path = text(tokens)?;
    let after = tokens.rest();
    let span = whole.span_to(after);
    Ok(Some((ImportSpec { span, name, path }, after)))
}

/// One import, with its name where it has one.
fn import_spec<'a>(tokens: Cursor<'a>) -> Reading<'a, ImportSpec>
    requires { HasTexts (ahead tokens) }
    ensures gives { Gives import_spec_of result
        (at span_to read_import_spec (ahead tokens.entry)) }
    ensures shorter { Shorter result tokens.entry }
{
    let Terminal::Ident = tokens.first() else {
        return import_path(tokens, None, tokens);
    };
    let name = name(tokens)?;
    import_path(tokens, Some(name), tokens.rest())
}

/// What follows a spec of a group: the tokens after its semicolon, or those from the parenthesis
/// that ends the group.
pub(crate) fn after_spec(tokens: Cursor) -> Option<Cursor>
    ensures is { option_map ahead result ≡ spec_end (ahead tokens.entry) }
    ensures within { IfSome result (λ r. length (ahead r) ≤ length (ahead tokens.entry)) }
{
    match tokens.first() {
        Terminal::Semicolon => Some(tokens.rest()),
        Terminal::EndParen => Some(tokens),
        _ => None,
    }
}

/// The imports of a group, up to the parenthesis that ends it.
fn import_group<'a>(tokens: Cursor<'a>) -> Reading<'a, ImportSpecList>
    requires { HasTexts (ahead tokens) }
    ensures gives { Gives (map import_spec_of) result
        (closed (at span_to read_import_specs (ahead tokens.entry))) }
    ensures shorter { Shorter result tokens.entry }
{
    let mut specs = Vec::new(tokens.room.alloc);
    let mut left = tokens;
    'specs: loop {
        if let Terminal::EndParen = left.first() {
            return Ok(Some((ImportSpecList::of(specs), left.rest())));
        }
        let Some((spec, after)) = import_spec(left)? else {
            return Ok(None);
        };
        specs.push(spec)?;
        let Some(next) = after_spec(after) else {
            return Ok(None);
        };
        left = next;
    }
}

/// The declaration of one import or of a group.
pub(crate) fn import<'a>(tokens: Cursor<'a>) -> Reading<'a, ImportDecl>
    requires { HasTexts (ahead tokens) }
    ensures gives { Gives import_decl_of result
        (at span_to read_import (ahead tokens.entry)) }
    ensures shorter { Shorter result tokens.entry }
{
    let Terminal::Import = tokens.first() else {
        return Ok(None);
    };
    let inner = tokens.rest();
    if let Terminal::Paren = inner.first() {
        grouped_import(tokens, inner.rest())
    } else {
        single_import(tokens, inner)
    }
}

fn grouped_import<'a>(whole: Cursor, tokens: Cursor<'a>) -> Reading<'a, ImportDecl>
    requires { HasTexts (ahead tokens) }
    ensures gives { Gives import_decl_of result
        (grouped_import_at (ahead whole.entry) (ahead tokens.entry)) }
    ensures shorter { Shorter result tokens.entry }
{
    let Some((specs, after)) = import_group(tokens)? else {
        return Ok(None);
    };
    let span = whole.span_to(after);
    let decl = ImportDecl {
        span,
        grouped: true,
        specs,
    };
    Ok(Some((decl, after)))
}

fn single_import<'a>(whole: Cursor, tokens: Cursor<'a>) -> Reading<'a, ImportDecl>
    requires { HasTexts (ahead tokens) }
    ensures gives { Gives import_decl_of result
        (single_import_at (ahead whole.entry) (ahead tokens.entry)) }
    ensures shorter { Shorter result tokens.entry }
{
    let Some((spec, after)) = import_spec(tokens)? else {
        return Ok(None);
    };
    let specs = ImportSpecList::of(vec![in tokens.room.alloc; spec]?);
    let span = whole.span_to(after);
    let decl = ImportDecl {
        span,
        grouped: false,
        specs,
    };
    Ok(Some((decl, after)))
}
