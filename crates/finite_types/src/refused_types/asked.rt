//! What is asked of the types of a table (Go specification, Comparison operators; Map types; Struct
//! types).

ghost use Rattle.std.specs.Prelude.{◌≡◌, IfOk};
ghost use Rattle.defined_types.specs.DeclaredTypes.{AreDeclared};
ghost use Rattle.finite_types.specs.RefusedTypes.Refusals.{AreTested};

use crate::first_finite;
use defined_types::DeclaredType;
use go_tree::NoMemory;
use std::alloc::Global;
use type_flags::TypeFlags;
use type_table::type_relations::Env;

/// Which types of a table have comparable keys in their maps, and which are finite, by their numbers,
/// and the declared types by which this is told.
#[derive(Drop)]
pub struct TypeTests {
    pub flags: TypeFlags,
    pub finite: Vec<bool>,
    pub declared: Vec<DeclaredType>,
}

impl TypeTests {
    /// What is asked of all types.
    pub fn of(
        alloc: Global,
        types: &Env,
        declared: Vec<DeclaredType>,
    ) -> Result<TypeTests, NoMemory>
        requires { AreDeclared types.now declared.items }
        ensures are { IfOk result (AreTested types.now) }
        ensures declared { IfOk result (λ tests. tests.declared ≡ declared) }
    {
        let _count = types.len();
        let flags = TypeFlags::of(alloc, types)?;
        let finite = first_finite(alloc, types, &declared)?;
        Ok(TypeTests {
            flags,
            finite,
            declared,
        })
    }
}
