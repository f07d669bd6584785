//! Arguments of calls in Go, alone and in pairs, worked out by hand.

use order_hazards::{Class, Item, ParamRow, before, clash, solo};
use std::test::Fail;

fn row(class: Class, uses: u32) -> ParamRow {
    ParamRow {
        class,
        constant: false,
        duplicable: class != Class::Acts,
        uses,
        barred: false,
        deferred_use: false,
        last_use: false,
        names_held: false,
        address: false,
    }
}

// The bodies are `return pow.Pow(x, 2)`, `return x + x`, `return b` and `println(a); return b`.
#[test]
fn arguments_alone() -> Result<(), Fail> {
    let called: &[Item] = &[Item::Param(0), Item::Write, Item::Stop];
    let doubled: &[Item] = &[Item::Param(0), Item::Param(0)];
    let second: &[Item] = &[Item::Param(1)];
    let printed: &[Item] = &[Item::Param(0), Item::Write, Item::Param(1)];
    let steady = row(Class::Steady, 1);
    let deferred = ParamRow {
        deferred_use: true,
        ..steady
    };
    let lost = ParamRow {
        last_use: true,
        ..row(Class::Steady, 0)
    };
    for (argument, i, items, writes, want, name) in [
        (steady, 0, called, true, true, "Square(x)"),
        (row(Class::Acts, 1), 0, called, true, true, "Square(next())"),
        (
            row(Class::Acts, 2),
            0,
            doubled,
            false,
            false,
            "Twice(next())",
        ),
        (row(Class::Steady, 2), 0, doubled, false, true, "Twice(x)"),
        (
            row(Class::Acts, 0),
            0,
            second,
            false,
            false,
            "First(a[i], b)",
        ),
        (
            row(Class::Looks, 1),
            1,
            printed,
            true,
            false,
            "a looking argument after a print",
        ),
        (steady, 1, printed, true, true, "a steady one"),
        (deferred, 0, called, true, false, "defer Close(v)"),
        (lost, 0, &[], false, false, "the last use of a variable"),
    ] {
        if solo(&argument, i, items, writes) != want {
            return Err(Fail::new(name));
        }
    }
    Ok(())
}

// The body is `return b - a`.
#[test]
fn arguments_in_order() -> Result<(), Fail> {
    let items = [Item::Param(1), Item::Param(0)];
    for (i, uses, j, want, name) in [
        (0, 1, 1, false, "a is used after b"),
        (1, 1, 0, true, "b is used before a"),
        (1, 2, 0, false, "a use is not listed"),
    ] {
        if before(&items, i, uses, j) != want {
            return Err(Fail::new(name));
        }
    }
    for (left, right, want, name) in [
        (Class::Acts, Class::Looks, true, "an act and a look"),
        (Class::Looks, Class::Looks, false, "two looks"),
        (Class::Steady, Class::Acts, false, "a steady one and an act"),
    ] {
        if clash(left, right) != want {
            return Err(Fail::new(name));
        }
    }
    Ok(())
}
