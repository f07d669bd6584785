//! The names that a declaration declares, and as what.

ghost use Rattle.std.specs.Prelude.{◌≡◌, ◌++◌, ◌∷◌, [], ◌-◌, map, IfOk, OnOk, nat_lt};
ghost use Rattle.go_tree.specs.Lists.{specs_from};
ghost use Rattle.go_tree.specs.View.{const_spec_of, var_spec_of, name_at_of};
ghost use Rattle.go_tree.specs.FileView.{type_spec_of, func_of, decl_of};
ghost use Rattle.pkg_graph.specs.Members.{specs_names, decl_names};
ghost use Rattle.file_names.specs.DeclaredNames.{name_of};

use go_tree::{ConstSpec, Decl, FuncDecl, NameAt, NoMemory, TypeSpec, VarSpec};
use std::alloc::Global;

/// What a name is declared as (Go specification, Declarations and scope).
#[derive(Clone, Copy, Debug, PartialEq, Eq)]
pub enum NameKind {
    /// A constant with an expression of its own.
    Constant,
    /// A constant whose expression is that of an earlier spec (Go specification, Constant declarations).
    Repeated,
    Variable,
    Alias,
    DefinedType,
    Function,
    Method,
}

/// A name where it is declared.
#[derive(Drop)]
pub struct DeclaredName<'a> {
    pub name: &'a NameAt,
    pub kind: NameKind,
}

/// What the constant that comes `at` so many names behind the first of its spec is declared as.
fn constant_kind(at: usize, values: usize) -> NameKind {
    if at < values {
        NameKind::Constant
    } else {
        NameKind::Repeated
    }
}

/// Adds the constants of a spec.
fn add_constants<'a>(spec: &'a ConstSpec, names: &mut Vec<DeclaredName<'a>>) -> Result<(), NoMemory>
    ensures { OnOk result (map name_of names.new.items
        ≡ map name_of names.old.items ++ map name_at_of spec.now.names) }
{
    let values = spec.values.items().len();
    for (at, name) in spec.names.items().iter().enumerate() {
        let kind = constant_kind(at, values);
        names.push(DeclaredName { name, kind })?;
    }
    Ok(())
}

/// Adds the constants of specs.
fn add_constant_specs<'a>(
    specs: &'a [ConstSpec],
    names: &mut Vec<DeclaredName<'a>>,
) -> Result<(), NoMemory>
    ensures { OnOk result (map name_of names.new.items
        ≡ map name_of names.old.items ++ specs_names (specs_from (map const_spec_of specs.now))) }
{
    for spec in specs {
        add_constants(spec, names)?;
    }
    Ok(())
}

/// Adds the variables of a spec.
fn add_variables<'a>(spec: &'a VarSpec, names: &mut Vec<DeclaredName<'a>>) -> Result<(), NoMemory>
    ensures { OnOk result (map name_of names.new.items
        ≡ map name_of names.old.items ++ map name_at_of spec.now.names) }
{
    for name in spec.names.items() {
        names.push(DeclaredName {
            name,
            kind: NameKind::Variable,
        })?;
    }
    Ok(())
}

/// Adds the variables of specs.
fn add_variable_specs<'a>(
    specs: &'a [VarSpec],
    names: &mut Vec<DeclaredName<'a>>,
) -> Result<(), NoMemory>
    ensures { OnOk result (map name_of names.new.items
        ≡ map name_of names.old.items ++ specs_names (specs_from (map var_spec_of specs.now))) }
{
    for spec in specs {
        add_variables(spec, names)?;
    }
    Ok(())
}

fn type_kind(spec: &TypeSpec) -> NameKind {
    if spec.alias {
        NameKind::Alias
    } else {
        NameKind::DefinedType
    }
}

/// Adds the types of specs.
fn add_types<'a>(specs: &'a [TypeSpec], names: &mut Vec<DeclaredName<'a>>) -> Result<(), NoMemory>
    ensures { OnOk result (map name_of names.new.items
        ≡ map name_of names.old.items ++ map (λ s. s.name) (map type_spec_of specs.now)) }
{
    for spec in specs {
        let kind = type_kind(spec);
        names.push(DeclaredName {
            name: &spec.name,
            kind,
        })?;
    }
    Ok(())
}

fn func_kind(func: &FuncDecl) -> NameKind {
    if func.receiver.is_some() {
        NameKind::Method
    } else {
        NameKind::Function
    }
}

/// Adds the function or method.
fn add_func<'a>(func: &'a FuncDecl, names: &mut Vec<DeclaredName<'a>>) -> Result<(), NoMemory>
    ensures { OnOk result (map name_of names.new.items
        ≡ map name_of names.old.items ++ (func_of func.now).name ∷ []) }
{
    let kind = func_kind(func);
    names.push(DeclaredName {
        name: &func.name,
        kind,
    })?;
    Ok(())
}

/// The names that a declaration declares, in their order: `_` and a method's name too. The only error is `NoMemory`.
pub fn declared_names<'a>(alloc: Global, decl: &'a Decl) -> Result<Vec<DeclaredName<'a>>, NoMemory>
    ensures { IfOk result (λ names. map name_of names.items ≡ decl_names (decl_of decl.now)) }
{
    let mut names = Vec::new(alloc);
    match decl {
        Decl::Const(decl) => add_constant_specs(decl.specs.items(), &mut names)?,
        Decl::Var(decl) => add_variable_specs(decl.specs.items(), &mut names)?,
        Decl::Types(decl) => add_types(decl.specs.items(), &mut names)?,
        Decl::Func(func) => add_func(func, &mut names)?,
    }
    Ok(names)
}
