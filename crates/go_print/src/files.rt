//! Files: their package clause, imports and declarations (Go specification, Source file organization).

ghost use Rattle.std.specs.Prelude.{◌≡◌, ◌++◌, IfOk, OnOk, map};
ghost use Rattle.go_layout.specs.FileLayout.{declaration_layout, file_layout, paragraphs_layout};
ghost use Rattle.go_layout.specs.Layouts.{text_of};
ghost use Rattle.go_tree.specs.FileView.{decl_of, file_of};

use crate::decls::{write_const_decl, write_var_decl};
use crate::funcs::write_func;
use crate::imports::write_imports;
use crate::parts::{write_line, write_name, write_text};
use crate::type_decls::write_types;
use go_tree::{Decl, FileTree, NoMemory, Text};
use std::alloc::Global;

/// The text of a file, without its comments. It ends with a newline. An error where memory is
/// refused.
pub fn print_file(alloc: Global, file: &FileTree) -> Result<Text, NoMemory>
    ensures { IfOk result (λ text. text ≡ text_of (file_layout (file_of file.now))) }
{
    let mut out = Vec::new(alloc);
    write_text(&mut out, b"package ")?;
    write_name(&mut out, &file.package)?;
    write_line(&mut out, b"")?;
    write_imports(&mut out, file.imports.items())?;
    write_decls(&mut out, file.decls.items())?;
    Ok(Text::of(out))
}

/// Declarations, an empty line before each.
fn write_decls(out: &mut Vec<u8>, items: &[Decl]) -> Result<(), NoMemory>
    ensures { OnOk result (out.new.items
        ≡ out.old.items ++ text_of (paragraphs_layout declaration_layout (map decl_of items.now))) }
{
    for decl in items {
        write_line(out, b"")?;
        write_decl(out, decl)?;
        write_line(out, b"")?;
    }
    Ok(())
}

fn write_decl(out: &mut Vec<u8>, decl: &Decl) -> Result<(), NoMemory>
    ensures { OnOk result (out.new.items ≡ out.old.items ++ text_of (declaration_layout (decl_of decl.now))) }
{
    match decl {
        Decl::Const(decl) => write_const_decl(out, decl, b""),
        Decl::Var(decl) => write_var_decl(out, decl, b""),
        Decl::Types(decl) => write_types(out, decl),
        Decl::Func(decl) => write_func(out, decl),
    }
}
