//! Names in declarations and files.

ghost use Rattle.std.specs.Prelude.{◌≡◌, OnOk, map};
ghost use Rattle.std.specs.Option.{option_map};
ghost use Rattle.go_tree.specs.FileView.{import_spec_of, import_decl_of, type_spec_of, receiver_of, func_of, decl_of};
ghost use Rattle.go_tree.specs.FileView.{file_of};
ghost use Rattle.name_walks.specs.Walk.{walk_of};
ghost use Rattle.names_within.specs.FileWalk.{after_import_specs, after_imports, after_type_specs, after_receiver};
ghost use Rattle.names_within.specs.FileWalk.{begin_receiver, after_header, after_body, after_func, after_decl};
ghost use Rattle.names_within.specs.FileWalk.{after_decls, after_file};

use crate::stmts::{const_decl_names, stmts_names, var_decl_names};
use crate::types::{begin_option, begin_sig, bind_option, mention_option, sig_names, type_names};
use go_tree::{Decl, FileTree, FuncDecl, ImportDecl, ImportSpec, NoMemory, Receiver, TypeSpec};
use name_walks::NameWalk;

fn import_specs_names(names: &mut NameWalk, specs: &[ImportSpec]) -> Result<(), NoMemory>
    ensures { OnOk result (walk_of names.new ≡ after_import_specs (map import_spec_of specs.now) (walk_of names.old)) }
{
    for spec in specs {
        mention_option(names, &spec.name)?;
    }
    Ok(())
}

fn imports_names(names: &mut NameWalk, imports: &[ImportDecl]) -> Result<(), NoMemory>
    ensures { OnOk result (walk_of names.new ≡ after_imports (map import_decl_of imports.now) (walk_of names.old)) }
{
    for import in imports {
        import_specs_names(names, import.specs.items())?;
    }
    Ok(())
}

fn type_specs_names(names: &mut NameWalk, specs: &[TypeSpec]) -> Result<(), NoMemory>
    ensures { OnOk result (walk_of names.new ≡ after_type_specs (map type_spec_of specs.now) (walk_of names.old)) }
{
    for spec in specs {
        names.mention(&spec.name.name)?;
        type_names(names, &spec.of)?;
    }
    Ok(())
}

fn receiver_names(names: &mut NameWalk, receiver: &Option<Receiver>) -> Result<(), NoMemory>
    ensures { OnOk result (walk_of names.new
        ≡ after_receiver (option_map receiver_of receiver.now) (walk_of names.old)) }
{
    match receiver {
        None => Ok(()),
        Some(receiver) => {
            bind_option(names, &receiver.name)?;
            names.mention(&receiver.of.name)
        }
    }
}

fn begin_receiver(
    names: &mut NameWalk,
    from: u32,
    receiver: &Option<Receiver>,
) -> Result<(), NoMemory>
    ensures { OnOk result (walk_of names.new
        ≡ begin_receiver from (option_map receiver_of receiver.now) (walk_of names.old)) }
{
    match receiver {
        None => Ok(()),
        Some(receiver) => begin_option(names, from, &receiver.name),
    }
}

fn header_names(names: &mut NameWalk, f: &FuncDecl) -> Result<(), NoMemory>
    ensures { OnOk result (walk_of names.new ≡ after_header (func_of f.now) (walk_of names.old)) }
{
    receiver_names(names, &f.receiver)?;
    names.mention(&f.name.name)?;
    sig_names(names, &f.sig)
}

fn body_names(names: &mut NameWalk, f: &FuncDecl) -> Result<(), NoMemory>
    ensures { OnOk result (walk_of names.new ≡ after_body (func_of f.now) (walk_of names.old)) }
{
    let mark = names.nesting();
    names.enter(f.body.span.end)?;
    begin_receiver(names, f.body.span.start, &f.receiver)?;
    begin_sig(names, f.body.span.start, &f.sig)?;
    stmts_names(names, &f.body.stmts)?;
    names.leave(mark);
    Ok(())
}

pub(crate) fn func_names(names: &mut NameWalk, f: &FuncDecl) -> Result<(), NoMemory>
    ensures { OnOk result (walk_of names.new ≡ after_func (func_of f.now) (walk_of names.old)) }
{
    header_names(names, f)?;
    body_names(names, f)
}

fn decl_names(names: &mut NameWalk, decl: &Decl) -> Result<(), NoMemory>
    ensures { OnOk result (walk_of names.new ≡ after_decl (decl_of decl.now) (walk_of names.old)) }
{
    match decl {
        Decl::Const(decl) => const_decl_names(names, decl),
        Decl::Var(decl) => var_decl_names(names, decl),
        Decl::Types(decl) => type_specs_names(names, decl.specs.items()),
        Decl::Func(f) => func_names(names, f),
    }
}

pub(crate) fn decls_names(names: &mut NameWalk, decls: &[Decl]) -> Result<(), NoMemory>
    ensures { OnOk result (walk_of names.new ≡ after_decls (map decl_of decls.now) (walk_of names.old)) }
{
    for decl in decls {
        decl_names(names, decl)?;
    }
    Ok(())
}

pub(crate) fn file_names(names: &mut NameWalk, file: &FileTree) -> Result<(), NoMemory>
    ensures { OnOk result (walk_of names.new ≡ after_file (file_of file.now) (walk_of names.old)) }
{
    names.mention(&file.package.name)?;
    imports_names(names, file.imports.items())?;
    decls_names(names, file.decls.items())
}
