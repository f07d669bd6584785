//! The files of a package, one after another.

ghost use Rattle.std.specs.Prelude.{◌≡◌, ◌<◌, All, IfOk, OnOk, length};
ghost use Rattle.std.specs.List.{list_all};
ghost use Rattle.run_rules.specs.ImportRules.Laid.{CommentsAscend};
ghost use Rattle.file_names.specs.Imports.{FindsPackages};
ghost use Rattle.programs.specs.Users.{AreItsUses};
ghost use Rattle.stepped_programs.specs.HeldBlocks.{HoldsBlock, IsHeldNext, IsHeldOf};
ghost use Rattle.stepped_programs.specs.PackageSearch.SearchedPrograms.Search.{IsUserSearch, Keeps};

use crate::held_blocks::{HeldBlock, taken_block};
use crate::package_search::{FileLook, FoundInPackage, ProgramSources, look_at_file};
use file_tables::Block;
use go_scan::Tokens;
use go_tree::NoMemory;
use pkg_graph::Package;
use programs::Users;
use repeated_parts::use_search::FoundObstacle;
use std::alloc::Global;

/// The file is a user of the constants of which these are uses.
fn add_users(
    users: &mut Users,
    file: (usize, usize),
    kept: &[FoundObstacle],
) -> Result<(), NoMemory>
    ensures used { OnOk result (AreItsUses users.new file kept.now) }
    ensures keeps { OnOk result (Keeps users.old users.new) }
{
    for found in kept {
        let mark = found.use_.mark;
        users.add((mark.package, (mark.file, mark.decl)), file)?;
    }
    Ok(())
}

/// Whether all files are settled.
fn all_settled(settled: &[bool]) -> bool
    ensures { result ≡ list_all (λ flag. flag) settled.now }
{
    settled.iter().all(|flag| *flag)
}

/// The first use that is free in the files of the package with this number, whose tokens and comments these are.
/// `settled` says of which files it is known that none of their uses is free: these aren't looked at, and those that
/// are looked at and have none come to them, and are users of the constants whose uses they keep. The package's block
/// is asked for only where a file isn't settled, and held where no use is free. An error where memory is refused.
pub(crate) fn search_files(
    alloc: Global,
    program: &ProgramSources,
    number: usize,
    home: &Package,
    tokens: &[Tokens],
    settled: &mut [bool],
    users: &mut Users,
    held: &mut Option<HeldBlock>,
) -> Result<Option<FoundInPackage>, NoMemory>
    requires places { FindsPackages program.now.places.now program.now.packages.now }
    requires ascend { All (λ t. CommentsAscend 0 t.comments) tokens.now }
    requires tokens { length tokens.now ≡ length home.now.files }
    requires settled { length settled.old ≡ length home.now.files }
    requires held { IsHeldOf number home.now held.old }
    ensures search { IfOk result
        (IsUserSearch program.now number home.now tokens.now users.new settled.old settled.new) }
    ensures keeps { OnOk result (Keeps users.old users.new) }
    ensures held { OnOk result (IsHeldNext number home.now held.old held.new) }
    ensures found { IfOk result HoldsBlock }
{
    if all_settled(settled) {
        return Ok(None);
    }
    let mut block = taken_block(alloc, number, home, held)?;
    for (file, source) in home.files.items().iter().enumerate() {
        if settled[file] {
            continue;
        }
        let look = look_at_file(alloc, program, number, source, &tokens[file], block)?;
        let FileLook { tables, kept, free } = look;
        if let Some(found) = free {
            return Ok(Some(FoundInPackage {
                file,
                tables,
                found,
            }));
        }
        add_users(users, (number, file), &kept)?;
        settled[file] = true;
        block = Block::in_tables(tables);
    }
    *held = Some(HeldBlock {
        home: number,
        block,
    });
    Ok(None)
}
