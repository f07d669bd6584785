//! Uses of members with their flags.

ghost use Rattle.std.specs.Prelude.{◌≡◌, ◌++◌, IfOk, OnOk, drop, map};
ghost use Rattle.member_uses.specs.Uses.{part_uses};
ghost use Rattle.member_uses.specs.Views.{names_in, used_of};
ghost use Rattle.member_uses.specs.PossibleUses.Views.{part_of};
ghost use Rattle.repeated_parts.specs.UsesRepeated.Uses.{first_flag, under_flag, with_flag, flagged_uses};
ghost use Rattle.repeated_parts.specs.UsesRepeated.Views.{flagged_of};

use go_tree::NoMemory;
use member_uses::possible_uses::PartRef;
use member_uses::{FileScopes, MemberUse, member_uses};
use std::alloc::Global;

/// A use of a member, and whether a later member of a group of constants repeats the expression in which it stands (Go
/// specification, Constant declarations).
#[derive(Clone, Copy)]
pub struct FlaggedUse<'a> {
    pub of: MemberUse<'a>,
    pub repeated: bool,
}

/// The flag with this number, if there is one.
fn flag_at(flags: &[Option<bool>], at: usize) -> Option<bool>
    ensures { result ≡ first_flag (drop at flags.now) }
{
    match flags.get(at) {
        None => None,
        Some(flag) => *flag,
    }
}

/// Adds the uses with this flag.
fn add_uses<'a>(
    found: &[MemberUse<'a>],
    repeated: bool,
    uses: &mut Vec<FlaggedUse<'a>>,
) -> Result<(), NoMemory>
    ensures { OnOk result (map flagged_of uses.new.items
        ≡ map flagged_of uses.old.items ++ with_flag repeated (map used_of found.now)) }
{
    for of in found {
        uses.push(FlaggedUse { of: *of, repeated })?;
    }
    Ok(())
}

/// Adds the use that a part is, with this flag.
fn add_flagged<'a>(
    alloc: Global,
    file: &FileScopes,
    part: PartRef<'a>,
    repeated: bool,
    uses: &mut Vec<FlaggedUse<'a>>,
) -> Result<(), NoMemory>
    ensures { OnOk result (map flagged_of uses.new.items ≡ map flagged_of uses.old.items
        ++ with_flag repeated (part_uses (λ s. s) (names_in file.now) (part_of part.entry).key
        (part_of part.entry).part)) }
{
    let found = member_uses(alloc, file, &[part])?;
    add_uses(&found, repeated, uses)
}

/// Adds the use that a part is, where it has a flag.
fn add_part<'a>(
    alloc: Global,
    file: &FileScopes,
    part: PartRef<'a>,
    flag: Option<bool>,
    uses: &mut Vec<FlaggedUse<'a>>,
) -> Result<(), NoMemory>
    ensures { OnOk result (map flagged_of uses.new.items ≡ map flagged_of uses.old.items
        ++ under_flag flag (part_uses (λ s. s) (names_in file.now) (part_of part.entry).key
        (part_of part.entry).part)) }
{
    match flag {
        None => Ok(()),
        Some(repeated) => add_flagged(alloc, file, part, repeated, uses),
    }
}

/// The members of package blocks that parts of a declaration name, in the order of the parts, each with the flag of its
/// part, as repeated_parts gives the flags; a part without a flag, which is a key that names a field, names none (Go
/// specification, Composite literals). An error where memory is refused. It takes one look-up a part.
pub fn repeated_uses<'a>(
    alloc: Global,
    file: &FileScopes,
    parts: &[PartRef<'a>],
    flags: &[Option<bool>],
) -> Result<Vec<FlaggedUse<'a>>, NoMemory>
    ensures { IfOk result (λ uses. map flagged_of uses.items
        ≡ flagged_uses (λ s. s) (names_in file.now) (map part_of parts.now) flags.now) }
{
    let mut uses = Vec::new(alloc);
    for (at, part) in parts.iter().enumerate() {
        let flag = flag_at(flags, at);
        add_part(alloc, file, *part, flag, &mut uses)?;
    }
    Ok(uses)
}
