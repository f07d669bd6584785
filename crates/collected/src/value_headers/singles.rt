//! The constant or the variable that one name is by its own value is declared (Go specification, Constant declarations;
//! Iota; Variable declarations).

ghost use Rattle.std.specs.Prelude.{◌≡◌, false, true, [], ◌∷◌, IfOk};
ghost use Rattle.std.specs.Option.{option_map};
ghost use Rattle.go_tree.specs.Tree.{expr_and, no_exprs};
ghost use Rattle.go_tree.specs.View.{expr_of, name_at_of, type_of};
ghost use Rattle.operand_modes.specs.CheckerTables.Ready.{AreReady, Keeps};
ghost use Rattle.initial_values.specs.Spelled.{HasGoodLiterals};
ghost use Rattle.initial_values.specs.ValueBlocks.Values.{AreThere};
ghost use Rattle.initial_values.specs.ValueEntities.Entities.{one_found};
ghost use Rattle.initial_values.specs.ValueEntities.Headers.{HasSpelledValues};
ghost use Rattle.value_rounds.specs.Values.{is_value};
ghost use Rattle.collected.specs.SingleHeaders.Singles.{listed_single, named_by, single_of};
ghost use Rattle.collected.specs.ValueHeaders.Steps.{SetsHeader, SetsValues};
ghost use Rattle.collected.specs.ValueHeaders.Values.{GivesValues};

use crate::single_headers::{SingleHeader, SingleKind};
use crate::value_headers::headers::{declare_kind, is_value_kind};
use crate::value_headers::names::declare_name;
use go_tree::{Expr, NameAt, NoMemory, TypeExpr};
use initial_values::{constant_at, names_of_one, value_place, variable_at};
use operand_modes::checker_tables::Tables;
use std::alloc::Global;
use type_table::operand_rules::Refusal;
use typed_names::{Blocks, Entity, Scope};

/// Whether a single name is a constant or a variable, or the whole header one of such.
pub(crate) fn is_value_name(kind: SingleKind) -> bool
    ensures { result ≡ is_value (single_of kind.entry) }
{
    match kind {
        SingleKind::One { .. } => true,
        SingleKind::Whole(kind) => is_value_kind(kind),
    }
}

/// The constant that a name is by its own value in a spec with a number, or the variable, in its file.
fn own_value(
    alloc: Global,
    tables: &mut Tables,
    file: &Scope,
    blocks: &Blocks,
    name: &NameAt,
    of: &Option<TypeExpr>,
    value: &Expr,
    number: Option<usize>,
) -> Result<Entity, Refusal>
    requires ready { AreReady tables.old }
    requires there { AreThere tables.old.env tables.old.consts blocks.now }
    requires spelled { HasGoodLiterals (expr_of value.now) }
    ensures ready { AreReady tables.new }
    ensures keeps { Keeps tables.old tables.new }
    ensures gives { GivesValues tables.old tables.new blocks.now file.now
        (named_by (name_at_of name.now ∷ []) (option_map type_of of.now) (expr_and (expr_of value.now) no_exprs) number)
        (one_found result) }
{
    let words = names_of_one(alloc, of, value)?;
    let place = value_place(alloc, file, number, &words)?;
    match number {
        Some(_) => constant_at(alloc, tables, &place, blocks, of, value),
        None => variable_at(alloc, tables, &place, blocks, of, value),
    }
}

/// Declares a name by its own value in the block of a package, unless the value is refused; tells whether it isn't.
fn declare_one(
    alloc: Global,
    tables: &mut Tables,
    file: &Scope,
    blocks: &mut Blocks,
    name: &NameAt,
    of: &Option<TypeExpr>,
    value: &Expr,
    number: Option<usize>,
) -> Result<bool, NoMemory>
    requires ready { AreReady tables.old }
    requires there { AreThere tables.old.env tables.old.consts blocks.old }
    requires spelled { HasGoodLiterals (expr_of value.now) }
    ensures ready { IfOk result (λ well. AreReady tables.new) }
    ensures keeps { IfOk result (λ well. Keeps tables.old tables.new) }
    ensures there { IfOk result (λ well. AreThere tables.new.env tables.new.consts blocks.new) }
    ensures same { IfOk result (λ well. well ≡ false → blocks.new ≡ blocks.old) }
    ensures set { IfOk result (SetsValues tables.old blocks.old tables.new blocks.new file.now
        (named_by (name_at_of name.now ∷ []) (option_map type_of of.now) (expr_and (expr_of value.now) no_exprs) number)) }
{
    let found = own_value(alloc, tables, file, blocks, name, of, value, number);
    declare_name(alloc, blocks, file.home, name, found)
}

/// The same of a single name, or of the names of a whole header.
fn declare_single_kind(
    alloc: Global,
    tables: &mut Tables,
    file: &Scope,
    blocks: &mut Blocks,
    kind: SingleKind,
) -> Result<bool, NoMemory>
    requires ready { AreReady tables.old }
    requires there { AreThere tables.old.env tables.old.consts blocks.old }
    requires spelled { HasSpelledValues (single_of kind) }
    ensures ready { IfOk result (λ well. AreReady tables.new) }
    ensures keeps { IfOk result (λ well. Keeps tables.old tables.new) }
    ensures there { IfOk result (λ well. AreThere tables.new.env tables.new.consts blocks.new) }
    ensures same { IfOk result (λ well. well ≡ false → blocks.new ≡ blocks.old) }
    ensures set { IfOk result (λ well. is_value (single_of kind.entry) ≡ true
        → SetsValues tables.old blocks.old tables.new blocks.new file.now (single_of kind.entry) well) }
{
    match kind {
        SingleKind::One {
            name,
            of,
            value,
            number,
        } => declare_one(alloc, tables, file, blocks, name, of, value, number),
        SingleKind::Whole(kind) => declare_kind(alloc, tables, file, blocks, kind),
    }
}

/// Declares a single name, or the names of a whole header, in the block of its package, unless it is refused; tells
/// whether it isn't. The error is want of memory (Go specification, Constant declarations; Variable declarations;
/// Package block).
pub(crate) fn declare_single(
    alloc: Global,
    tables: &mut Tables,
    files: &[Scope],
    blocks: &mut Blocks,
    single: &SingleHeader,
) -> Result<bool, NoMemory>
    requires ready { AreReady tables.old }
    requires there { AreThere tables.old.env tables.old.consts blocks.old }
    requires spelled { HasSpelledValues (single_of single.now.kind) }
    ensures ready { IfOk result (λ well. AreReady tables.new) }
    ensures keeps { IfOk result (λ well. Keeps tables.old tables.new) }
    ensures there { IfOk result (λ well. AreThere tables.new.env tables.new.consts blocks.new) }
    ensures same { IfOk result (λ well. well ≡ false → blocks.new ≡ blocks.old) }
    ensures set { IfOk result
        (SetsHeader files.now (listed_single single.now) tables.old blocks.old tables.new blocks.new) }
{
    if !single.sound {
        return Ok(false);
    }
    match files.get(single.file) {
        Some(file) => declare_single_kind(alloc, tables, file, blocks, single.kind),
        None => Ok(false),
    }
}
