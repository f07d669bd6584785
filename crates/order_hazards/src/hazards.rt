//! Which argument may take its parameter's place, and which two may not change places.

ghost use Rattle.std.specs.Prelude.{◌≡◌, ◌<◌, ◌↔◌, Bool, IsTrue, IfSome, length, position};
ghost use Rattle.std.specs.List.{list_any, count_by};
ghost use Rattle.order_hazards.specs.Items.{ListsUses, UsesAhead, IsBefore, is_use, is_write, is_effect};
ghost use Rattle.order_hazards.specs.Clash.{Clash};
ghost use Rattle.order_hazards.specs.declared.facts.Item.{Item};
ghost use Rattle.order_hazards.specs.Solo.{IsSolo, IsDroppable, LooksBeforeWrites, ActsOnceAndFirst};

use crate::facts::{Class, Item, ParamRow};

/// Whether the argument of parameter `i` may take the parameter's place as far as it alone tells.
///
/// `items` are those of the body, and `body_writes` says that the whole body has a `Write`. Of the
/// row, `deferred_use` is also set where the call is deferred.
pub fn solo(row: &ParamRow, i: u32, items: &[Item], body_writes: bool) -> bool
    ensures { IsTrue result ↔ IsSolo row.now i items.now body_writes }
{
    !row.barred
        && (!row.deferred_use || row.constant)
        && (row.uses < 2 || row.duplicable)
        && (row.uses > 0 || is_droppable(row))
        && keeps_order(row, i, items, body_writes)
}

/// Whether two arguments of these classes may not change places: one acts, and the other acts or looks.
pub fn clash(a: Class, b: Class) -> bool
    ensures { IsTrue result ↔ Clash a b }
{
    match (a, b) {
        (Class::Acts, Class::Acts | Class::Looks) | (Class::Looks, Class::Acts) => true,
        _ => false,
    }
}

/// Whether the items list all `uses` uses of parameter `i`, each before each use of parameter `j`.
pub fn before(items: &[Item], i: u32, uses: u32, j: u32) -> bool
    ensures { IsTrue result ↔ IsBefore items.now i uses j }
{
    lists_before(items, i, uses, first_use(items, j))
}

fn is_droppable(row: &ParamRow) -> bool
    ensures { IsTrue result ↔ IsDroppable row.now }
{
    row.class != Class::Acts && !row.address && !row.names_held && !row.last_use
}

fn keeps_order(row: &ParamRow, i: u32, items: &[Item], body_writes: bool) -> bool
    ensures { IsTrue result
        ↔ (LooksBeforeWrites row.now i items.now body_writes × ActsOnceAndFirst row.now i items.now) }
{
    match row.class {
        Class::Steady => true,
        Class::Looks => !body_writes || lists_before(items, i, row.uses, first_write(items)),
        Class::Acts => row.uses == 1 && lists_before(items, i, 1, first_effect(items)),
    }
}

// Whether `uses` uses of parameter `i` are listed, all before the index `first`.
fn lists_before(items: &[Item], i: u32, uses: u32, first: Option<usize>) -> bool
    requires { IfSome first (λ k. k < length items.now) }
    ensures { (test : Item → Bool) → first ≡ position test items.now →
        IsTrue result ↔ (ListsUses items.now i uses × UsesAhead items.now i test) }
{
    let end = first.unwrap_or(items.len());
    count_uses(items, i) == uses as usize && !has_use(&items[end..], i)
}

fn count_uses(items: &[Item], i: u32) -> usize
    ensures { result ≡ count_by (is_use i) items.now }
{
    items.iter().filter(|item| item.is_use(i)).count()
}

fn has_use(items: &[Item], i: u32) -> bool
    ensures { result ≡ list_any (is_use i) items.now }
{
    items.iter().any(|item| item.is_use(i))
}

fn first_use(items: &[Item], j: u32) -> Option<usize>
    ensures is { result ≡ position (is_use j) items.now }
    ensures within { IfSome result (λ k. k < length items.now) }
{
    items.iter().position(|item| item.is_use(j))
}

fn first_write(items: &[Item]) -> Option<usize>
    ensures is { result ≡ position is_write items.now }
    ensures within { IfSome result (λ k. k < length items.now) }
{
    items.iter().position(|item| item.is_write())
}

// The first item that an acting argument may not pass.
fn first_effect(items: &[Item]) -> Option<usize>
    ensures is { result ≡ position is_effect items.now }
    ensures within { IfSome result (λ k. k < length items.now) }
{
    items.iter().position(|item| item.is_effect())
}
