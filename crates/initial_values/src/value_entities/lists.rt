//! What names are declared as, one by one (Go specification, Constant declarations; Variable
//! declarations).

ghost use Rattle.std.specs.Prelude.{◌≡◌, IfSome};
ghost use Rattle.type_table.specs.TypeRelations.Environment.{defined_types};
ghost use Rattle.type_table.specs.declared.operand_rules.values.ValueType.TheVariants.{Typed};
ghost use Rattle.type_table.specs.OperandRules.Values.{IsType};
ghost use Rattle.operator_rules.specs.Settling.{typed_option};
ghost use Rattle.operand_modes.specs.Operands.{AreOperands, IsOperand, operand_at, operands_at};
ghost use Rattle.typed_names.specs.Meanings.{entity_option};
ghost use Rattle.operand_modes.specs.CheckerTables.Ready.{AreReady};
ghost use Rattle.operand_modes.specs.OperandAnswers.Known.{IsEntity};
ghost use Rattle.initial_values.specs.ValueEntities.Entities.{GivesEntities, GivesVariables, entities_by, operand_by};

use crate::value_entities::entities::{ValueKind, entity_of};
use operand_modes::checker_tables::Tables;
use operand_modes::{Operand, single_value};
use std::alloc::Global;
use std::marker::Model;
use type_table::TypeId;
use type_table::operand_rules::Refusal;
use typed_names::Entity;

/// What names are declared as, in their order.
#[derive(Drop)]
pub struct EntityList {
    pub items: Vec<Entity>,
}

impl Model for EntityList {
    ghost use Rattle.std.specs.Prelude.{List};
    ghost use Rattle.typed_names.specs.declared.entities.Entity as entity;

    ghost Value = { List entity.Entity };

    ghost view = { λ a. a.items.items };
}

/// What the name of an operand is declared as.
pub(crate) fn operand_entity(
    tables: &Tables,
    kind: ValueKind,
    of: Option<TypeId>,
    operand: Operand,
) -> Option<Entity>
    requires ready { AreReady tables.now }
    requires of { IfSome of (λ t. IsType tables.now.env (Typed t)) }
    requires operand { IsOperand tables.now.env tables.now.consts operand }
    ensures is { entity_option tables.now.env tables.now.consts result
        ≡ operand_by kind (defined_types tables.now.env) (typed_option tables.now.env of)
        (operand_at tables.now.env tables.now.consts operand) }
    ensures there { IfSome result (IsEntity tables.now.env tables.now.consts) }
{
    match single_value(operand) {
        Some(x) => entity_of(tables, kind, of, x),
        None => None,
    }
}

/// What the names of operands are declared as, or that one of them may not be.
pub(crate) fn entities_of(
    alloc: Global,
    tables: &Tables,
    kind: ValueKind,
    of: Option<TypeId>,
    operands: &[Operand],
) -> Result<EntityList, Refusal>
    requires ready { AreReady tables.now }
    requires of { IfSome of (λ t. IsType tables.now.env (Typed t)) }
    requires operands { AreOperands tables.now.env tables.now.consts operands.now }
    ensures { GivesEntities tables.now.env tables.now.consts
        (entities_by kind (defined_types tables.now.env) (typed_option tables.now.env of)
        (operands_at tables.now.env tables.now.consts operands.now)) result }
{
    let mut items = Vec::new(alloc);
    for operand in operands {
        match operand_entity(tables, kind, of, *operand) {
            Some(entity) => items.push(entity)?,
            None => return Err(Refusal::NotTyped),
        }
    }
    Ok(EntityList { items })
}

/// So many variables of the type.
pub(crate) fn variables_of(alloc: Global, count: usize, t: TypeId) -> Result<EntityList, Refusal>
    ensures { GivesVariables count t result }
{
    let mut items = Vec::new(alloc);
    for _ in 0..count {
        items.push(Entity::Variable(t))?;
    }
    Ok(EntityList { items })
}
