//! The form in the place of the use, and the imports of its file settled.

ghost use Rattle.std.specs.Prelude.{◌≡◌, ◌<◌, ◌≤◌, ◌++◌, ◌∷◌, [], IfOk, OnOk, length, List};
ghost use Rattle.std.specs.Prelude.{ℕ, map};
ghost use Rattle.std.specs.Option.{option_map, option_to_list};
ghost use Rattle.go_tree.specs.FileView.{file_of};
ghost use Rattle.run_rules.specs.ImportRules.Laid.{CommentsAscend, Laid};
ghost use Rattle.run_rules.specs.ImportRules.Settled.{settled};
ghost use Rattle.text_edits.specs.Applied.{Within};
ghost use Rattle.constant_forms.specs.Views.{named_of};
ghost use Rattle.run_rules.specs.Laws.{LiesBehindImports};
ghost use Rattle.run_rules.specs.Naming.{imports_added};
ghost use Rattle.run_rules.specs.Run.{Standing, edits_in};
ghost use Rattle.run_rules.specs.Sites.{MarkRef};
ghost use Rattle.run_rules.specs.Steps.{At, Found};
ghost use Rattle.run_rules.specs.Surroundings.{Slot};
ghost use Rattle.run_rules.specs.Texts.{FileText};
ghost use Rattle.constant_edits.specs.Edits.{added_by, blank_told, edit_told, first_word, name_text};
ghost use Rattle.constant_edits.specs.Edits.{IsFormEdit, IsStep};

use constant_forms::{ConstantForm, NamedPackage, settle_scanned};
use go_tree::{Comment, FileTree, MAX_FILE_BYTES, Name, NoMemory, Span, Text, Token};
use run_rules::import_rules::NewImport;
use std::alloc::Global;
use text_edits::{Edit, Edits};
use token_joints::needs_blank;

/// Its first word: the package's name, or the constant's.
fn first_word(form: &ConstantForm) -> &Name
    ensures { result.now ≡ first_word form.now }
{
    match &form.package {
        None => &form.name,
        Some(package) => &package.name,
    }
}

fn write_package(text: &mut Vec<u8>, named: &NamedPackage) -> Result<(), NoMemory>
    ensures { OnOk result (text.new.items ≡ text.old.items ++ named.now.name ++ 46 ∷ []) }
{
    text.extend_from_slice(named.name.items())?;
    text.push(b'.')?;
    Ok(())
}

/// Writes the name, behind that of its package where it has one.
fn write_name(text: &mut Vec<u8>, form: &ConstantForm) -> Result<(), NoMemory>
    ensures { OnOk result (text.new.items ≡ text.old.items ++ name_text form.now) }
{
    match &form.package {
        None => {
            text.extend_from_slice(form.name.items())?;
            Ok(())
        }
        Some(package) => {
            write_package(text, package)?;
            text.extend_from_slice(form.name.items())?;
            Ok(())
        }
    }
}

/// A blank, where the token before the use would run into the form.
fn blank_before(alloc: Global, tokens: &[Token], form: &ConstantForm) -> Result<Vec<u8>, NoMemory>
    ensures { IfOk result (λ text. text.items ≡ blank_told tokens.now form.now) }
{
    let mut text = Vec::new(alloc);
    if needs_blank(alloc, tokens, form.span.start, first_word(form).items())? {
        text.push(b' ')?;
        Ok(text)
    } else {
        Ok(text)
    }
}

/// The edit that writes the form in the place of the use.
fn edit_of(alloc: Global, tokens: &[Token], form: &ConstantForm) -> Result<Edit, NoMemory>
    ensures { IfOk result (λ e. e ≡ edit_told tokens.now form.now) }
{
    let mut text = blank_before(alloc, tokens, form)?;
    write_name(&mut text, form)?;
    Ok(Edit {
        span: form.span,
        text: Text::of(text),
    })
}

/// The edit that writes a constant's name in the place of its use, in a text with these tokens (Go specification,
/// Tokens; Qualified identifiers). An error where memory is refused. Linear in the tokens.
pub fn form_edit(alloc: Global, tokens: &[Token], form: &ConstantForm) -> Result<Edit, NoMemory>
    ensures { IfOk result (λ e. (t : FileText) (z : At) (slot : Slot) → t.tokens ≡ tokens.now → slot.level ≤ 7
        → IsFormEdit t z slot form.now e) }
{
    let edit = edit_of(alloc, tokens, form)?;
    Ok(edit)
}

fn copied(alloc: Global, import: &NewImport) -> Result<NewImport, NoMemory>
    ensures { IfOk result (λ i. i ≡ import.now) }
{
    Ok(NewImport {
        name: Name::copied(alloc, import.name.items())?,
        path: Text::copied(alloc, import.path.items())?,
        spelled: import.spelled,
    })
}

fn put_added(
    alloc: Global,
    list: &mut Vec<NewImport>,
    added: &Option<NewImport>,
) -> Result<(), NoMemory>
    ensures { OnOk result (list.new.items ≡ list.old.items ++ option_to_list added.now) }
{
    match added {
        None => Ok(()),
        Some(import) => {
            list.push(copied(alloc, import)?)?;
            Ok(())
        }
    }
}

/// The import that the form adds.
fn added_by(alloc: Global, form: &ConstantForm) -> Result<Vec<NewImport>, NoMemory>
    ensures { IfOk result (λ list. list.items ≡ added_by form.now) }
{
    let mut list = Vec::new(alloc);
    match &form.package {
        None => Ok(list),
        Some(package) => {
            put_added(alloc, &mut list, &package.added)?;
            Ok(list)
        }
    }
}

/// The edits of a step in which a use of a marked constant becomes the constant's name: those that settle the imports
/// of its file, the one that the form adds and those whose specs `unused` names, and behind them that of the form (Go
/// specification, Import declarations; Constant declarations).
///
/// The file has this text, with these tokens and comments; its imports lie in the text as their spans say, and the use
/// behind them. An error where memory is refused. Linear in the text, its tokens, comments and imports.
pub fn step_edits(
    alloc: Global,
    text: &[u8],
    tokens: &[Token],
    comments: &[Comment],
    file: &FileTree,
    form: &ConstantForm,
    unused: &[Span],
) -> Result<Edits, NoMemory>
    requires size { length text.now ≤ MAX_FILE_BYTES }
    requires laid { Laid text.now tokens.now (file_of file.now) }
    requires ascend { CommentsAscend 0 comments.now }
    requires behind { LiesBehindImports text.now tokens.now (file_of file.now) form.now.span }
    requires some { form.now.span.start < form.now.span.end }
    ensures edits { IfOk result (λ es. (marks : List MarkRef) (st : Standing) (t : FileText) (f : Found At)
        → IsStep marks st t f text.now tokens.now comments.now (file_of file.now) form.now unused.now
        → es ≡ edits_in marks st t f) }
    ensures within { IfOk result (λ es. Within (length text.now) es) }
{
    let added = added_by(alloc, form)?;
    let edit = edit_of(alloc, tokens, form)?;
    let mut edits = settle_scanned(alloc, text, tokens, comments, file, &added, unused)?;
    edits.push(edit)?;
    Ok(edits)
}
