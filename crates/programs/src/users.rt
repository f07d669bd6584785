//! Which files use the constants of a declaration.

ghost use Rattle.std.specs.Prelude.{◌≡◌, ◌||◌, ◌&&◌, [], OnOk};
ghost use Rattle.repeated_parts.specs.UseSearch.MarkValues.Tables.{DeclKey, same_key};
ghost use Rattle.programs.specs.Users.{FileKey, is_user, same_file};

use go_tree::NoMemory;
use indexmap::IndexSet;
use std::alloc::Global;
use std::marker::Model;

/// Files that use marked constants, each with a declaration of these. A declaration is known by the numbers of its
/// package, its file and itself, and a file by those of its package and itself.
#[derive(Drop)]
pub struct Users {
    keys: IndexSet<((usize, (usize, usize)), (usize, usize))>,
}

impl Model for Users {
    ghost use Rattle.programs.specs.Users.{Known};

    ghost Value = { Known };

    ghost view = { λ a. a.keys.keys };
}

impl Users {
    /// No files.
    pub fn new(alloc: Global) -> Self
        ensures { result ≡ [] }
    {
        Users {
            keys: IndexSet::new(alloc),
        }
    }

    /// The file uses constants of the declaration from now on. The only error is `NoMemory`.
    pub fn add(
        &mut self,
        decl: (usize, (usize, usize)),
        file: (usize, usize),
    ) -> Result<(), NoMemory>
        ensures { OnOk result ((k : DeclKey) (f : FileKey)
            → is_user self.new k f ≡ (same_key k decl && same_file f file) || is_user self.old k f) }
    {
        self.keys.insert((decl, file))?;
        Ok(())
    }

    /// Whether the file uses constants of the declaration. Takes one look-up.
    pub fn has(&self, decl: (usize, (usize, usize)), file: (usize, usize)) -> bool
        ensures { result ≡ is_user self.now decl file }
    {
        self.keys.contains(&(decl, file))
    }
}
