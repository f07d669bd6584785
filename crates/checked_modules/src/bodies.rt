//! The first function or method of each file whose body is refused.

ghost use Rattle.std.specs.Prelude.{◌≡◌, map, IfOk};
ghost use Rattle.go_tree.specs.FileView.{decl_of};
ghost use Rattle.operand_modes.specs.CheckerTables.Ready.{AreReady, Keeps};
ghost use Rattle.operand_modes.specs.OperandAnswers.Known.{Stands};
ghost use Rattle.collected.specs.Values.{AreThere};
ghost use Rattle.file_names.specs.Imports.{FindsPackages};
ghost use Rattle.checked_modules.specs.Bodies.{AreWalked, FindsAll, FindsDecl, FindsDecls, FindsIn, FindsThere};
ghost use Rattle.checked_modules.specs.FunctionBodies.Walked.{AreWalkedDecls, IsWalkedDecl};

use crate::file_places::{FilePlace, own_place, place_of};
use crate::function_bodies::body_is_typed;
use file_names::{Places, find_packages};
use go_tree::{Decl, FileTree, NoMemory, Span};
use operand_modes::checker_tables::Tables;
use pkg_graph::Package;
use std::alloc::Global;
use typed_names::{Blocks, Scope};

/// Where a declaration stands, if it is that of a function or method whose body is refused.
fn refused_decl(
    alloc: Global,
    tables: &mut Tables,
    blocks: &Blocks,
    scope: &mut Scope,
    decl: &Decl,
) -> Result<Option<Span>, NoMemory>
    requires stands { Stands tables.old blocks.now scope.old }
    requires walked { IsWalkedDecl (decl_of decl.now) }
    ensures stands { IfOk result (λ o. Stands tables.new blocks.now scope.new) }
    ensures keeps { IfOk result (λ o. Keeps tables.old tables.new) }
    ensures same { IfOk result (λ o. scope.new ≡ scope.old) }
    ensures found { IfOk result (FindsDecl tables.old blocks.now scope.old (decl_of decl.now)) }
{
    match decl {
        Decl::Func(function) => {
            let typed = body_is_typed(alloc, tables, scope, blocks, function)?;
            if typed {
                Ok(None)
            } else {
                Ok(Some(function.span))
            }
        }
        Decl::Const(_) => Ok(None),
        Decl::Var(_) => Ok(None),
        Decl::Types(_) => Ok(None),
    }
}

/// The place of the first such declaration.
fn first_decl(
    alloc: Global,
    tables: &mut Tables,
    blocks: &Blocks,
    scope: &mut Scope,
    decls: &[Decl],
) -> Result<Option<Span>, NoMemory>
    requires stands { Stands tables.old blocks.now scope.old }
    requires walked { AreWalkedDecls (map decl_of decls.now) }
    ensures stands { IfOk result (λ o. Stands tables.new blocks.now scope.new) }
    ensures keeps { IfOk result (λ o. Keeps tables.old tables.new) }
    ensures found { IfOk result (FindsDecls tables.old blocks.now scope.old (map decl_of decls.now)) }
{
    for decl in decls {
        let found = refused_decl(alloc, tables, blocks, scope, decl)?;
        match found {
            Some(at) => return Ok(Some(at)),
            None => {}
        }
    }
    Ok(None)
}

/// That of a file of which a place is told.
fn first_there(
    alloc: Global,
    packages: &[Package],
    paths: &Places,
    tables: &mut Tables,
    blocks: &Blocks,
    place: &Scope,
    tree: &FileTree,
) -> Result<Option<Span>, NoMemory>
    requires paths { FindsPackages paths.now packages.now }
    requires ready { AreReady tables.old }
    requires there { AreThere tables.old.env tables.old.consts blocks.now }
    requires walked { AreWalkedDecls (map decl_of tree.now.decls) }
    ensures ready { IfOk result (λ o. AreReady tables.new) }
    ensures there { IfOk result (λ o. AreThere tables.new.env tables.new.consts blocks.now) }
    ensures keeps { IfOk result (λ o. Keeps tables.old tables.new) }
    ensures found { IfOk result (FindsThere packages.now tables.old blocks.now place.now tree.now) }
{
    let mut scope = own_place(alloc, packages, paths, place, tree)?;
    let found = first_decl(alloc, tables, blocks, &mut scope, tree.decls.items())?;
    Ok(found)
}

/// That of a file; none where it declares nothing.
fn first_in_file(
    alloc: Global,
    packages: &[Package],
    paths: &Places,
    tables: &mut Tables,
    blocks: &Blocks,
    places: &[Scope],
    file: &FilePlace,
) -> Result<Option<Span>, NoMemory>
    requires paths { FindsPackages paths.now packages.now }
    requires ready { AreReady tables.old }
    requires there { AreThere tables.old.env tables.old.consts blocks.now }
    requires walked { AreWalkedDecls (map decl_of file.now.tree.now.decls) }
    ensures ready { IfOk result (λ o. AreReady tables.new) }
    ensures there { IfOk result (λ o. AreThere tables.new.env tables.new.consts blocks.now) }
    ensures keeps { IfOk result (λ o. Keeps tables.old tables.new) }
    ensures found { IfOk result (FindsIn packages.now tables.old blocks.now places.now file.now) }
{
    match place_of(places, file) {
        Some(place) => first_there(alloc, packages, paths, tables, blocks, place, file.tree),
        None => Ok(None),
    }
}

/// The place of the first function or method of each file whose body is refused, if there is one. The tables have all
/// names that the packages declare. The error is want of memory; linear in the files but for look-ups.
pub(crate) fn refused_functions(
    alloc: Global,
    packages: &[Package],
    tables: &mut Tables,
    blocks: &Blocks,
    places: &[Scope],
    files: &[FilePlace],
) -> Result<Vec<Option<Span>>, NoMemory>
    requires ready { AreReady tables.old }
    requires there { AreThere tables.old.env tables.old.consts blocks.now }
    requires walked { AreWalked files.now }
    ensures ready { IfOk result (λ bodies. AreReady tables.new) }
    ensures there { IfOk result (λ bodies. AreThere tables.new.env tables.new.consts blocks.now) }
    ensures keeps { IfOk result (λ bodies. Keeps tables.old tables.new) }
    ensures found { IfOk result (λ bodies.
        FindsAll packages.now tables.old blocks.now places.now files.now bodies.items) }
{
    let paths = find_packages(alloc, packages)?;
    let mut bodies = Vec::new(alloc);
    for file in files {
        let found = first_in_file(alloc, packages, &paths, tables, blocks, places, file)?;
        bodies.push(found)?;
    }
    Ok(bodies)
}
