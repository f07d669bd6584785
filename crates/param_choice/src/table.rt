//! The table of a call: a row for each parameter, and the operations of the body.

ghost use Rattle.std.specs.Prelude.{◌≡◌};

use order_hazards::{Item, ParamRow};
use std::marker::Model;

/// What is known of a call's parameters and arguments, and of the body.
#[derive(Drop)]
pub struct CallTable {
    /// One row a parameter, in order: the receiver, if there is one, and then the parameters. There
    /// are fewer than 2^32.
    pub rows: RowList,
    /// The items of the body, in the order of evaluation.
    pub items: ItemList,
    /// The whole body has a `Write`.
    pub body_writes: bool,
    /// A pair (i, j) says that parameter j's name is free in argument i.
    pub names: PairList,
}

/// A list of rows.
#[derive(Drop)]
pub struct RowList {
    entries: Vec<ParamRow>,
}

impl Model for RowList {
    ghost use Rattle.std.specs.Prelude.{List};
    ghost use Rattle.order_hazards.specs.declared.facts.ParamRow.{ParamRow};

    ghost Value = { List ParamRow };

    ghost view = { λ l. l.entries.items };
}

impl RowList {
    /// The list of these rows, in their order.
    pub fn of(v: Vec<ParamRow>) -> Self
        ensures { result ≡ v.items }
    {
        RowList { entries: v }
    }

    /// The rows, in their order.
    pub fn items(&self) -> &[ParamRow]
        ensures { result.now ≡ self.now }
    {
        &self.entries
    }
}

/// A list of items.
#[derive(Drop)]
pub struct ItemList {
    entries: Vec<Item>,
}

impl Model for ItemList {
    ghost use Rattle.std.specs.Prelude.{List};
    ghost use Rattle.order_hazards.specs.declared.facts.Item.{Item};

    ghost Value = { List Item };

    ghost view = { λ l. l.entries.items };
}

impl ItemList {
    /// The list of these items, in their order.
    pub fn of(v: Vec<Item>) -> Self
        ensures { result ≡ v.items }
    {
        ItemList { entries: v }
    }

    /// The items, in their order.
    pub fn items(&self) -> &[Item]
        ensures { result.now ≡ self.now }
    {
        &self.entries
    }
}

/// A list of pairs of parameters, by their numbers.
#[derive(Drop)]
pub struct PairList {
    entries: Vec<(u32, u32)>,
}

impl Model for PairList {
    ghost use Rattle.std.specs.Prelude.{ℕ, List};

    ghost Value = { List (ℕ × ℕ) };

    ghost view = { λ l. l.entries.items };
}

impl PairList {
    /// The list of these pairs, in their order.
    pub fn of(v: Vec<(u32, u32)>) -> Self
        ensures { result ≡ v.items }
    {
        PairList { entries: v }
    }

    /// The pairs, in their order.
    pub fn items(&self) -> &[(u32, u32)]
        ensures { result.now ≡ self.now }
    {
        &self.entries
    }
}
