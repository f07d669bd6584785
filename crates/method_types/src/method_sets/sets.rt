//! A set of methods for each type (Go specification, Method declarations).

ghost use Rattle.std.specs.Prelude.{◌≡◌, ◌<◌, length, replicate, [], IfOk, OnOk};
ghost use Rattle.package_blocks.specs.Headers.{header_of};
ghost use Rattle.type_table.specs.TypeRelations.Methods.{method_row};
ghost use Rattle.method_types.specs.MethodNames.Known.{method_in};
ghost use Rattle.method_types.specs.Steps.{attached_at};
ghost use Rattle.method_types.specs.MethodSets.Steps.{put_header, put_headers, put_method, put_row};

use crate::method_names::method_in;
use go_tree::{Name, NoMemory};
use package_blocks::PackageHeader;
use std::alloc::Global;
use type_table::TypeId;
use type_table::type_relations::{Method, MethodSet};

/// No methods, for each of so many types.
fn no_methods(alloc: Global, count: usize) -> Result<Vec<MethodSet>, NoMemory>
    ensures { IfOk result (λ sets. sets.items ≡ replicate count []) }
{
    let mut sets = Vec::new(alloc);
    for _ in 0..count {
        sets.push(MethodSet::new(alloc))?;
    }
    Ok(sets)
}

/// A copy of a name.
fn copy_of(alloc: Global, name: &Name) -> Result<Vec<u8>, NoMemory>
    ensures { IfOk result (λ copy. copy.items ≡ name.now) }
{
    Ok(name.items().to_vec(alloc)?)
}

/// The type that is answered for the header with this number.
fn attached_at(types: &[Option<TypeId>], number: usize) -> Option<TypeId>
    ensures { result ≡ attached_at types.now number }
{
    match types.get(number) {
        Some(t) => *t,
        None => None,
    }
}

/// Puts a method into a set, unless one of its name is there.
fn put_method(
    alloc: Global,
    set: &mut MethodSet,
    name: &Name,
    method: Method,
) -> Result<(), NoMemory>
    ensures { OnOk result (set.new ≡ put_method (method_row name.now method) set.old) }
{
    if set.find(name.items()).is_some() {
        drop(method);
        return Ok(());
    }
    let copy = copy_of(alloc, name)?;
    set.add(copy, method)
}

/// Puts a method into the set of a type.
fn put_on(
    alloc: Global,
    sets: &mut Vec<MethodSet>,
    t: TypeId,
    name: &Name,
    method: Method,
) -> Result<(), NoMemory>
    ensures { OnOk result (sets.new.items ≡ put_row t.0 (method_row name.now method) sets.old.items) }
{
    if t.0 < sets.len() {
        put_method(alloc, &mut sets[t.0], name, method)
    } else {
        drop(method);
        Ok(())
    }
}

/// Puts the method that a header declares into the set of its type.
fn put_header(
    alloc: Global,
    sets: &mut Vec<MethodSet>,
    header: &PackageHeader,
    t: Option<TypeId>,
    method: Option<Method>,
) -> Result<(), NoMemory>
    ensures { OnOk result (sets.new.items
        ≡ put_header (method_in (header_of header.now.kind)) t method sets.old.items) }
{
    match (method_in(header), t, method) {
        (Some(at), Some(t), Some(method)) => {
            put_on(alloc, sets, t, &at.function.name.name, method)
        }
        _ => Ok(()),
    }
}

/// The methods that headers declare, a set for each of so many types.
pub(crate) fn method_sets(
    alloc: Global,
    count: usize,
    headers: &[PackageHeader],
    attached: &[Option<TypeId>],
    methods: Vec<Option<Method>>,
) -> Result<Vec<MethodSet>, NoMemory>
    ensures { IfOk result (λ sets. sets.items
        ≡ put_headers attached.now 0 headers.now methods.items (replicate count [])) }
{
    let mut sets = no_methods(alloc, count)?;
    let mut rest = methods.into_iter();
    for (number, header) in headers.iter().enumerate() {
        let Some(method) = rest.next() else {
            return Ok(sets);
        };
        let t = attached_at(attached, number);
        put_header(alloc, &mut sets, header, t, method)?;
    }
    Ok(sets)
}
