//! An order of single names in which one comes behind those that its value names, and which headers name which (Go
//! specification, Declarations and scope).

use crate::single_headers::{SingleHeader, SingleKind};
use go_tree::{Name, NameAtList, NoMemory};
use indexmap::IndexMap;
use initial_values::{names_of_one, value_names};
use package_blocks::HeaderKind;
use pkg_graph::import_order::rows::Rows;
use std::alloc::Global;
use typed_names::Scope;

/// Which single header declares a constant or a variable, by the numbers of packages.
#[derive(Drop)]
struct DeclaringNames {
    blocks: Vec<IndexMap<Vec<u8>, usize>>,
}

impl DeclaringNames {
    /// None, of so many packages.
    fn new(alloc: Global, packages: usize) -> Result<Self, NoMemory> {
        let mut blocks = Vec::new(alloc);
        for _ in 0..packages {
            blocks.push(IndexMap::new(alloc))?;
        }
        Ok(DeclaringNames { blocks })
    }

    /// The number of the single header that declares a name.
    fn find(&self, home: u32, name: &[u8]) -> Option<usize> {
        match self.blocks.get(home as usize) {
            Some(block) => block.get(name).copied(),
            None => None,
        }
    }

    /// The name is declared by the single header of this number.
    fn add(
        &mut self,
        alloc: Global,
        home: u32,
        name: &Name,
        number: usize,
    ) -> Result<(), NoMemory> {
        if (home as usize) < self.blocks.len() {
            let copy = name.items().to_vec(alloc)?;
            self.blocks[home as usize].insert(copy, number)?;
        }
        Ok(())
    }

    /// So are several.
    fn add_all(
        &mut self,
        alloc: Global,
        home: u32,
        names: &NameAtList,
        number: usize,
    ) -> Result<(), NoMemory> {
        for name in names.items() {
            self.add(alloc, home, &name.name, number)?;
        }
        Ok(())
    }

    /// So are those of a single header.
    fn add_single(
        &mut self,
        alloc: Global,
        home: u32,
        kind: SingleKind,
        number: usize,
    ) -> Result<(), NoMemory> {
        match kind {
            SingleKind::One { name, .. } => self.add(alloc, home, &name.name, number),
            SingleKind::Whole(HeaderKind::Constants { names, .. }) => {
                self.add_all(alloc, home, names, number)
            }
            SingleKind::Whole(HeaderKind::Variables(spec)) => {
                self.add_all(alloc, home, &spec.names, number)
            }
            SingleKind::Whole(HeaderKind::Type(_)) => Ok(()),
            SingleKind::Whole(HeaderKind::Function(_)) => Ok(()),
        }
    }
}

/// The place of a single header whose names may be declared; any other declares nothing.
fn place_of<'a>(files: &'a [Scope], single: &SingleHeader) -> Option<&'a Scope> {
    if single.sound {
        files.get(single.file)
    } else {
        None
    }
}

/// The names with which its type and values are written.
fn used_names(alloc: Global, kind: SingleKind) -> Result<Vec<Name>, NoMemory> {
    match kind {
        SingleKind::One { of, value, .. } => names_of_one(alloc, of, value),
        SingleKind::Whole(
            HeaderKind::Constants {
                repeats: Some(spec),
                ..
            },
        ) => value_names(alloc, &spec.of, &spec.values),
        SingleKind::Whole(HeaderKind::Constants { repeats: None, .. }) => Ok(Vec::new(alloc)),
        SingleKind::Whole(HeaderKind::Variables(spec)) => {
            value_names(alloc, &spec.of, &spec.values)
        }
        SingleKind::Whole(HeaderKind::Type(_)) => Ok(Vec::new(alloc)),
        SingleKind::Whole(HeaderKind::Function(_)) => Ok(Vec::new(alloc)),
    }
}

/// Which single headers declare the names of constants and variables of all packages.
fn declaring_names(
    alloc: Global,
    files: &[Scope],
    packages: usize,
    singles: &[SingleHeader],
) -> Result<DeclaringNames, NoMemory> {
    let mut declaring = DeclaringNames::new(alloc, packages)?;
    for (number, single) in singles.iter().enumerate() {
        if let Some(place) = place_of(files, single) {
            declaring.add_single(alloc, place.home, single.kind, number)?;
        }
    }
    Ok(declaring)
}

/// The number of the single header that declares what a name means at a place, if one of its package does; the name of
/// an import hides it.
fn used_single(declaring: &DeclaringNames, place: &Scope, name: &[u8]) -> Option<usize> {
    match place.imports.find(name) {
        Some(_) => None,
        None => declaring.find(place.home, name),
    }
}

/// A single header names another.
#[derive(Clone, Copy, Drop)]
struct NameUse {
    user: usize,
    used: usize,
}

/// Which single headers name which.
fn name_uses(
    alloc: Global,
    files: &[Scope],
    packages: usize,
    singles: &[SingleHeader],
) -> Result<Vec<NameUse>, NoMemory> {
    let declaring = declaring_names(alloc, files, packages, singles)?;
    let mut uses = Vec::new(alloc);
    for (user, single) in singles.iter().enumerate() {
        if let Some(place) = place_of(files, single) {
            let names = used_names(alloc, single.kind)?;
            for name in &names {
                if let Some(used) = used_single(&declaring, place, name.items()) {
                    uses.push(NameUse { user, used })?;
                }
            }
        }
    }
    Ok(uses)
}

/// By the numbers of headers, those that name one of its names.
pub(crate) fn header_users(
    alloc: Global,
    files: &[Scope],
    packages: usize,
    headers: usize,
    singles: &[SingleHeader],
) -> Result<Rows, NoMemory> {
    let uses = name_uses(alloc, files, packages, singles)?;
    let mut users = Rows::new(alloc, headers)?;
    for pair in &uses {
        if pair.user < singles.len() && pair.used < singles.len() {
            let used = singles[pair.used].header;
            if used < users.len() {
                users.add(used, singles[pair.user].header)?;
            }
        }
    }
    Ok(users)
}

/// Adds the headers that name one of the names of a header.
pub(crate) fn add_users(
    next: &mut Vec<usize>,
    users: &Rows,
    number: usize,
) -> Result<(), NoMemory> {
    if number < users.len() {
        for user in users.row(number) {
            next.push(*user)?;
        }
    }
    Ok(())
}

/// By the numbers of single headers: those that name one of its names, and how many names it waits for.
#[derive(Drop)]
struct Waiting {
    users: Rows,
    waits: Vec<usize>,
}

impl Waiting {
    /// None, of so many.
    fn new(alloc: Global, count: usize) -> Result<Self, NoMemory> {
        let users = Rows::new(alloc, count)?;
        let waits = vec![in alloc; 0usize; count]?;
        Ok(Waiting { users, waits })
    }

    /// One waits for another.
    fn add(&mut self, user: usize, used: usize) -> Result<(), NoMemory> {
        if user < self.waits.len() && used < self.users.len() && self.waits[user] < usize::MAX {
            self.users.add(used, user)?;
            self.waits[user] += 1;
        }
        Ok(())
    }
}

/// Which single headers wait for which.
fn names_waiting(
    alloc: Global,
    files: &[Scope],
    packages: usize,
    singles: &[SingleHeader],
) -> Result<Waiting, NoMemory> {
    let uses = name_uses(alloc, files, packages, singles)?;
    let mut waits = Waiting::new(alloc, singles.len())?;
    for pair in &uses {
        waits.add(pair.user, pair.used)?;
    }
    Ok(waits)
}

/// Those that wait for a single header wait for one name less; who waits for none any more is added.
fn let_go(waits: &mut [usize], users: &[usize], order: &mut Vec<usize>) -> Result<(), NoMemory> {
    for user in users {
        if *user < waits.len() && waits[*user] > 0 {
            waits[*user] -= 1;
            if waits[*user] == 0 {
                order.push(*user)?;
            }
        }
    }
    Ok(())
}

/// Places a single header that waits for none, and behind it those that wait for none any more then.
fn place_single(
    users: &Rows,
    waits: &mut [usize],
    order: &mut Vec<usize>,
    number: usize,
) -> Result<(), NoMemory> {
    let start = order.len();
    order.push(number)?;
    for at in start..users.len() {
        if at >= order.len() {
            return Ok(());
        }
        let placed = order[at];
        if placed < users.len() {
            let_go(waits, users.row(placed), order)?;
        }
    }
    Ok(())
}

/// The numbers of those that wait for none.
fn without_waits(alloc: Global, waits: &[usize]) -> Result<Vec<usize>, NoMemory> {
    let mut free = Vec::new(alloc);
    for (number, count) in waits.iter().enumerate() {
        if *count == 0 {
            free.push(number)?;
        }
    }
    Ok(free)
}

/// The numbers of single headers, package after package as they stand, each behind all of its package that its value
/// names; without those that lead back to themselves, and those behind them. Linear in the text of the headers, but
/// for look-ups by hash.
pub(crate) fn order_of_use(
    alloc: Global,
    files: &[Scope],
    packages: usize,
    singles: &[SingleHeader],
) -> Result<Vec<usize>, NoMemory> {
    let Waiting { users, mut waits } = names_waiting(alloc, files, packages, singles)?;
    let free = without_waits(alloc, &waits)?;
    let mut order = Vec::new(alloc);
    for number in &free {
        place_single(&users, &mut waits, &mut order, *number)?;
    }
    Ok(order)
}
