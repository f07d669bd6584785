//! Sets of parameters chosen for calls in Go, worked out by hand.

use order_hazards::{Class, Item, ParamRow};
use param_choice::{CallTable, ItemList, PairList, RowList, choose};
use std::alloc::Global;
use std::test::Fail;

fn row(class: Class, uses: u32) -> ParamRow {
    ParamRow {
        class,
        constant: false,
        duplicable: class != Class::Acts,
        uses,
        barred: false,
        deferred_use: false,
        last_use: false,
        names_held: false,
        address: false,
    }
}

/// A call: its name, its parameters, what its body does, which argument names which parameter, whether constants may be
/// chosen, and the numbers of the chosen parameters.
type Case<'a> = (
    &'a str,
    &'a [ParamRow],
    &'a [Item],
    &'a [(u32, u32)],
    bool,
    &'a [u32],
);

/// The table of a call.
fn table(
    alloc: Global,
    rows: &[ParamRow],
    items: &[Item],
    names: &[(u32, u32)],
) -> Result<CallTable, Fail> {
    let rows = Vec::from_slice(alloc, rows)?;
    let body_writes = items.contains(&Item::Write);
    let items = Vec::from_slice(alloc, items)?;
    let names = Vec::from_slice(alloc, names)?;
    Ok(CallTable {
        rows: RowList::of(rows),
        items: ItemList::of(items),
        body_writes,
        names: PairList::of(names),
    })
}

/// Whether the chosen parameters of the table are the wanted ones.
fn is_chosen(alloc: Global, t: &CallTable, constants: bool, want: &[u32]) -> Result<bool, Fail> {
    let count = t.rows.items().len();
    if count > 1000 {
        return Err(Fail::new("too many parameters"));
    }
    let set = choose(alloc, t, constants)?;
    let mut same = true;
    for i in 0..count as u32 {
        same = same && set.has(i) == want.contains(&i);
    }
    Ok(same)
}

fn compare(alloc: Global, cases: &[Case]) -> Result<(), Fail> {
    for (name, rows, items, names, constants, want) in cases {
        let t = table(alloc, *rows, *items, *names)?;
        let same = is_chosen(alloc, &t, *constants, *want)?;
        if !same {
            return Err(Fail::new(*name));
        }
    }
    Ok(())
}

#[test]
fn one_parameter(rt: HostRuntime) -> Result<(), Fail> {
    let variable = row(Class::Steady, 1);
    let call = row(Class::Acts, 1);
    let literal = ParamRow {
        constant: true,
        ..variable
    };
    let both = row(Class::Acts, 2);
    // `return pow.Pow(x, 2)`, `return x + 1`, where the sum is a constant fault, and `return x + x`.
    let called = [Item::Param(0), Item::Write];
    let once = [Item::Param(0)];
    let doubled = [Item::Param(0), Item::Param(0)];
    compare(
        rt.alloc(),
        &[
            ("Square(x)", &[variable], &called, &[(0, 0)], true, &[0]),
            ("Square(next())", &[call], &called, &[], true, &[0]),
            ("Square(pow)", &[variable], &called, &[], true, &[0]),
            ("Inc(127)", &[literal], &once, &[], true, &[0]),
            ("Inc(127), bound", &[literal], &once, &[], false, &[]),
            ("Twice(next())", &[both], &doubled, &[], true, &[]),
            ("no parameters", &[], &[], &[], true, &[]),
        ],
    )
}

#[test]
fn two_parameters(rt: HostRuntime) -> Result<(), Fail> {
    let variable = row(Class::Steady, 1);
    let call = row(Class::Acts, 1);
    let unused = [row(Class::Acts, 0), variable];
    let pair = [row(Class::Acts, 2), variable];
    // `return y`, `return b - a`, `println(b, a)` and `println(a, a, b)`; in the last call the argument a names the
    // bound parameter a.
    let second = [Item::Param(1)];
    let turned = [Item::Param(1), Item::Param(0)];
    let printed = [Item::Param(1), Item::Param(0), Item::Write];
    let twice = [Item::Param(0), Item::Param(0), Item::Param(1), Item::Write];
    compare(
        rt.alloc(),
        &[
            ("First(a[i], b)", &unused, &second, &[], true, &[1]),
            ("Less(g(), h())", &[call, call], &turned, &[], true, &[1]),
            ("Log(g(), h())", &[call, call], &printed, &[], true, &[1]),
            ("Pair(next(), a)", &pair, &twice, &[(1, 0)], true, &[]),
        ],
    )
}

#[test]
fn names_in_turn(rt: HostRuntime) -> Result<(), Fail> {
    let variable = row(Class::Steady, 1);
    let bound = ParamRow {
        barred: true,
        ..variable
    };
    // The first is bound, and each of the next three names the one before it.
    let chain = [bound, variable, variable, variable, variable];
    let names = [(1, 0), (2, 1), (3, 2)];
    let three = [variable, variable, variable];
    let held = [variable, bound, variable];
    let circle = [(0, 1), (1, 2), (2, 0)];
    compare(
        rt.alloc(),
        &[
            ("one strikes three more", &chain, &[], &names, true, &[4]),
            ("a circle", &three, &[], &circle, true, &[0, 1, 2]),
            ("a circle with a bound one", &held, &[], &circle, true, &[]),
        ],
    )
}

// A hundred calls, used in order, of which each names the next. While the last is bound, all are.
#[test]
fn large_table(rt: HostRuntime) -> Result<(), Fail> {
    let free = [row(Class::Acts, 1); 100];
    let mut items = [Item::Read; 1000];
    let mut names = [(0, 0); 99];
    let mut all = [0; 100];
    for i in 0..100u32 {
        items[i as usize] = Item::Param(i);
        all[i as usize] = i;
        if i < 99 {
            names[i as usize] = (i, i + 1);
        }
    }
    let mut held = free;
    held[99].barred = true;
    compare(
        rt.alloc(),
        &[
            ("the last bound", &held, &items, &names, true, &[]),
            ("none bound", &free, &items, &names, true, &all),
        ],
    )
}
