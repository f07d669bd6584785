//! Constants and variables are found name by name (Go specification, Constant declarations; Variable declarations;
//! Declarations and scope).

ghost use Rattle.std.specs.Prelude.{◌≡◌, false, List, map, length, replicate, IfOk, OnOk};
ghost use Rattle.pkg_graph.specs.declared.packages.Package.{Package};
ghost use Rattle.typed_names.specs.Meanings.{world_at};
ghost use Rattle.package_blocks.specs.Headers.{AreHeaders};
ghost use Rattle.package_blocks.specs.FuncHeaders.Functions.{program_of};
ghost use Rattle.operand_modes.specs.CheckerTables.Ready.{AreReady, Keeps};
ghost use Rattle.value_rounds.specs.Values.{OthersAreDeclared};
ghost use Rattle.value_rounds.specs.NameRounds.Passes.{named_headers};
ghost use Rattle.initial_values.specs.ValueBlocks.Values.{AreThere};
ghost use Rattle.collected.specs.SingleHeaders.Singles.{listed_single};
ghost use Rattle.collected.specs.ValueHeaders.SpelledDecls.{SinglesAreSpelled};
ghost use Rattle.collected.specs.PackageValues.Passes.{AllFound, AllNamesAre, NameLooked, NamesLooked};

use crate::package_values::order::order_of_use;
use crate::single_headers::SingleHeader;
use crate::value_headers::{declare_single, is_value_name};
use go_tree::NoMemory;
use operand_modes::checker_tables::Tables;
use std::alloc::{AllocError, Global};
use typed_names::{Blocks, Scope};

/// So many marks, all of them set or none.
pub(crate) fn marks(alloc: Global, count: usize, mark: bool) -> Result<Vec<bool>, NoMemory>
    ensures { IfOk result (λ marks. marks.items ≡ replicate count mark) }
{
    let mut marks = Vec::new(alloc);
    for _ in 0..count {
        marks.push(mark)?;
    }
    Ok(marks)
}

/// Looks at the single name of a number, unless its value is found; tells whether it is now. `found` says of which
/// names it is.
fn look_at(
    alloc: Global,
    tables: &mut Tables,
    files: &[Scope],
    blocks: &mut Blocks,
    singles: &[SingleHeader],
    found: &mut Vec<bool>,
    number: usize,
) -> Result<bool, NoMemory>
    requires ready { AreReady tables.old }
    requires there { AreThere tables.old.env tables.old.consts blocks.old }
    requires spelled { SinglesAreSpelled singles.now }
    requires count { length found.old.items ≡ length singles.now }
    ensures { IfOk result (NameLooked files.now singles.now number
        tables.old blocks.old found.old.items tables.new blocks.new found.new.items) }
{
    match singles.get(number) {
        Some(single) => {
            if found[number] {
                return Ok(false);
            }
            if !is_value_name(single.kind) {
                return Ok(false);
            }
            if !declare_single(alloc, tables, files, blocks, single)? {
                return Ok(false);
            }
            found[number] = true;
            Ok(true)
        }
        None => Ok(false),
    }
}

/// Looks at the single names of these numbers, one after the other.
fn look_in_order(
    alloc: Global,
    tables: &mut Tables,
    files: &[Scope],
    blocks: &mut Blocks,
    singles: &[SingleHeader],
    found: &mut Vec<bool>,
    order: &[usize],
) -> Result<(), NoMemory>
    requires ready { AreReady tables.old }
    requires there { AreThere tables.old.env tables.old.consts blocks.old }
    requires spelled { SinglesAreSpelled singles.now }
    requires count { length found.old.items ≡ length singles.now }
    ensures { OnOk result (NamesLooked files.now singles.now
        tables.old blocks.old found.old.items tables.new blocks.new found.new.items) }
{
    for number in order {
        look_at(alloc, tables, files, blocks, singles, found, *number)?;
    }
    Ok(())
}

/// Looks at all single names whose values aren't found; tells whether that of one is now.
fn look_at_all(
    alloc: Global,
    tables: &mut Tables,
    files: &[Scope],
    blocks: &mut Blocks,
    singles: &[SingleHeader],
    found: &mut Vec<bool>,
) -> Result<bool, NoMemory>
    requires ready { AreReady tables.old }
    requires there { AreThere tables.old.env tables.old.consts blocks.old }
    requires spelled { SinglesAreSpelled singles.now }
    requires count { length found.old.items ≡ length singles.now }
    ensures looked { IfOk result (λ changed. NamesLooked files.now singles.now
        tables.old blocks.old found.old.items tables.new blocks.new found.new.items) }
    ensures all { IfOk result (λ changed. changed ≡ false
        → AllNamesAre files.now singles.now tables.new blocks.new found.new.items) }
{
    let mut changed = false;
    for number in 0..singles.len() {
        if look_at(alloc, tables, files, blocks, singles, found, number)? {
            changed = true;
        }
    }
    Ok(changed)
}

/// Looks at single names again and again while the value of one is found: one time does behind a look in order of use.
fn look_on(
    alloc: Global,
    tables: &mut Tables,
    files: &[Scope],
    blocks: &mut Blocks,
    singles: &[SingleHeader],
    found: &mut Vec<bool>,
) -> Result<(), NoMemory>
    requires ready { AreReady tables.old }
    requires there { AreThere tables.old.env tables.old.consts blocks.old }
    requires spelled { SinglesAreSpelled singles.now }
    requires count { length found.old.items ≡ length singles.now }
    ensures looked { OnOk result (NamesLooked files.now singles.now
        tables.old blocks.old found.old.items tables.new blocks.new found.new.items) }
    ensures all { OnOk result (AllNamesAre files.now singles.now tables.new blocks.new found.new.items) }
{
    for _ in 0..u64::MAX {
        if !look_at_all(alloc, tables, files, blocks, singles, found)? {
            return Ok(());
        }
    }
    // There are fewer names than that.
    Err(AllocError)
}

/// Declares constants and variables name by name, each unless its own value is refused, and answers for each single
/// name whether it is found. The names of types and of functions have to be known before.
pub(crate) fn find_names(
    alloc: Global,
    tables: &mut Tables,
    files: &[Scope],
    blocks: &mut Blocks,
    singles: &[SingleHeader],
) -> Result<Vec<bool>, NoMemory>
    requires ready { AreReady tables.old }
    requires there { AreThere tables.old.env tables.old.consts blocks.old }
    requires spelled { SinglesAreSpelled singles.now }
    ensures ready { IfOk result (λ found. AreReady tables.new) }
    ensures keeps { IfOk result (λ found. Keeps tables.old tables.new) }
    ensures there { IfOk result (λ found. AreThere tables.new.env tables.new.consts blocks.new) }
    ensures count { IfOk result (λ found. length found.items ≡ length singles.now) }
    ensures found { IfOk result (λ found. (packages : List Package)
        → AreHeaders files.now (map listed_single singles.now) (named_headers (program_of packages))
        → OthersAreDeclared (program_of packages) (world_at tables.old.env tables.old.consts blocks.old)
        → AllFound (program_of packages) (world_at tables.new.env tables.new.consts blocks.new) found.items) }
{
    let mut found = marks(alloc, singles.len(), false)?;
    let order = order_of_use(alloc, files, blocks.len(), singles)?;
    look_in_order(alloc, tables, files, blocks, singles, &mut found, &order)?;
    look_on(alloc, tables, files, blocks, singles, &mut found)?;
    Ok(found)
}
