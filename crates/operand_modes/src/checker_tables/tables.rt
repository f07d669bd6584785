//! The tables of the checker.

ghost use Rattle.std.specs.Prelude.{IfOk};
ghost use Rattle.operand_modes.specs.CheckerTables.Ready.{AreReady};

use go_tree::NoMemory;
use operator_rules::BasicTypes;
use std::alloc::Global;
use type_flags::TypeFlags;
use type_table::operand_rules::ConstTable;
use type_table::type_relations::Env;

/// Types with their flags, the predeclared types that rules give by themselves, and constants.
#[derive(Drop)]
pub struct Tables {
    pub env: Env,
    pub flags: TypeFlags,
    pub basics: BasicTypes,
    pub consts: ConstTable,
}

impl Tables {
    /// Tables with a few predeclared types alone.
    #[tactic(auto, using(crate::proofs::CheckerTables::ReadyLemmas::first_ready))]
    pub fn new(alloc: Global) -> Result<Tables, NoMemory>
        ensures { IfOk result AreReady }
    {
        let mut env = Env::new(alloc);
        let basics = BasicTypes::of(&mut env)?;
        let flags = TypeFlags::of(alloc, &env)?;
        Ok(Tables {
            env,
            flags,
            basics,
            consts: ConstTable::new(alloc),
        })
    }
}
