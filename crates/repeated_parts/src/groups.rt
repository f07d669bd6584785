//! Members of groups of constants.

ghost use Rattle.std.specs.Prelude.{◌≡◌, OnOk, drop, map};
ghost use Rattle.go_tree.specs.Lists.{specs_from};
ghost use Rattle.go_tree.specs.View.{const_spec_of};
ghost use Rattle.repeated_parts.specs.Flags.{put_flag, put_field, is_repeated};

use go_tree::{ConstSpec, NoMemory};

/// One more flag.
pub(crate) fn put_flag(repeated: bool, flags: &mut Vec<Option<bool>>) -> Result<(), NoMemory>
    ensures { OnOk result (flags.new.items ≡ put_flag repeated flags.old.items) }
{
    flags.push(Some(repeated))?;
    Ok(())
}

/// One more key that names a field.
pub(crate) fn put_field(flags: &mut Vec<Option<bool>>) -> Result<(), NoMemory>
    ensures { OnOk result (flags.new.items ≡ put_field flags.old.items) }
{
    flags.push(None)?;
    Ok(())
}

/// Whether the member with this number has no values of its own, and so repeats those before it (Go specification,
/// Constant declarations); none where there are fewer.
pub(crate) fn is_repeated(specs: &[ConstSpec], next: usize) -> bool
    ensures { result ≡ is_repeated (specs_from (map const_spec_of (drop next specs.now))) }
{
    match specs.get(next) {
        None => false,
        Some(spec) => spec.values.items().is_empty(),
    }
}
