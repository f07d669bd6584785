//! What holds of each line of a text.

ghost use Rattle.std.specs.Prelude.{◌≡◌, ◌&&◌, ◌||◌, length, false, IfOk};
ghost use Rattle.directive_scan.specs.Tables.{entry, led_list, leads_list, line_numbers};
ghost use Rattle.directive_scan.specs.Lines.{line_of};
ghost use Rattle.std.specs.List.{list_any};

use crate::items::Item;
use crate::line_table::line_at;
use go_tree::NoMemory;
use std::alloc::Global;

fn next_led(lead: bool, mark: bool, led: bool) -> bool
    ensures { result ≡ (lead && (mark || led)) }
{
    lead && (mark || led)
}

/// For each line whether a mark line is among its lead lines, from which lines hold comments alone
/// and which are mark lines. One entry more than there are lines.
#[tactic(auto, using(crate::proofs::LedLaws::led_drop))]
pub(crate) fn led_lines(
    alloc: Global,
    leads: &[bool],
    marks: &[bool],
) -> Result<Vec<bool>, NoMemory>
    requires { length leads.now ≡ length marks.now }
    ensures { IfOk result (λ lines. lines.items ≡ led_list false leads.now marks.now) }
{
    let mut lines = Vec::new(alloc);
    let mut led = false;
    for (i, lead) in leads.iter().enumerate() {
        lines.push(led)?;
        led = next_led(*lead, marks[i], led);
    }
    lines.push(led)?;
    Ok(lines)
}

/// For each line whether something starts on a line that it leads to, from which lines hold comments
/// alone and on which ones something starts.
#[tactic(auto, using(crate::proofs::LeadsLaws::loop_laws))]
pub(crate) fn leading_lines(
    alloc: Global,
    leads: &[bool],
    starts: &[bool],
) -> Result<Vec<bool>, NoMemory>
    requires { length leads.now ≡ length starts.now }
    ensures { IfOk result (λ lines. lines.items ≡ leads_list leads.now starts.now) }
{
    let mut lines = vec![in alloc; false; leads.len()]?;
    let mut below = false;
    for count in 0..leads.len() {
        let line = leads.len() - 1 - count;
        let leading = leads[line] && below;
        lines[line] = leading;
        below = starts[line] || leading;
    }
    Ok(lines)
}

/// Whether the flag of the line is set on which an offset stands.
#[tactic(auto, using(crate::proofs::FlagLaws::entry_at))]
pub(crate) fn flag_at(text: &[u8], numbers: &[u32], flags: &[bool], at: u32) -> bool
    requires numbered { numbers.now ≡ line_numbers 0 text.now }
    ensures { result ≡ entry flags.now (line_of text.now at) }
{
    let line = line_at(text, numbers, at) as usize;
    line < flags.len() && flags[line]
}

/// Whether the flag of a line is set on which the item starts.
pub(crate) fn has_flag(text: &[u8], numbers: &[u32], flags: &[bool], item: &Item) -> bool
    requires numbered { numbers.now ≡ line_numbers 0 text.now }
    ensures { result ≡ list_any (λ at. entry flags.now (line_of text.now at)) item.now.starts }
{
    flag_at(text, numbers, flags, item.start)
        || match item.member {
            Some(member) => flag_at(text, numbers, flags, member),
            None => false,
        }
}
