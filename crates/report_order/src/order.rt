//! Items by their offsets.

ghost use Rattle.std.specs.Prelude.{◌≡◌, OnOk};
ghost use Rattle.report_order.specs.Order.{in_order};

use go_tree::NoMemory;
use report_lines::ReportItem;

/// Sorts the items by their offsets; those of one place keep their order.
pub(crate) fn sort_items(items: &mut Vec<ReportItem>) -> Result<(), NoMemory>
    ensures { OnOk result (items.new.items ≡ in_order items.old.items) }
{
    items.sort_by_key(|item| item.offset)?;
    Ok(())
}
