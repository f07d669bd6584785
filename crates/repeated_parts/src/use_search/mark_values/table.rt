//! A table of what marked constants are declared as.

ghost use Rattle.std.specs.Prelude.{◌≡◌, ◌<◌, ◌^◌, ◌++◌, ◌∷◌, List, [], All, IfOk, OnOk};
ghost use Rattle.std.specs.Prelude.{is_some, map, option_copied};
ghost use Rattle.std.specs.Option.{option_map};
ghost use Rattle.go_tree.specs.FileView.{decl_of};
ghost use Rattle.member_uses.specs.Views.{names_in};
ghost use Rattle.module_marks.specs.Views.{mark_ref_of};
ghost use Rattle.repeated_parts.specs.UseSearch.MarkValues.Values.{value_of, decl_values};
ghost use Rattle.repeated_parts.specs.UseSearch.MarkValues.Tables.{DeclKey, key_of, values_at, value_in, IsPut, AreSmall, AreKnown};
ghost use Rattle.repeated_parts.specs.UseSearch.MarkValues.Tables.{AreValuesOf};

use crate::use_search::mark_values::marked::{PackageScopes, marked_decl, marked_scopes};
use crate::use_search::mark_values::values::DeclaredValues;
use constant_forms::ConstantValue;
use file_names::MarkRef;
use go_tree::{Decl, NoMemory};
use indexmap::IndexMap;
use member_uses::FileScopes;
use pkg_graph::Package;
use std::alloc::Global;
use std::marker::Model;

/// What the constants of declarations are declared as, by the numbers of their packages, files and declarations.
#[derive(Drop)]
pub struct ConstantValues {
    entries: IndexMap<(usize, (usize, usize)), DeclaredValues>,
}

impl Model for ConstantValues {
    ghost use Rattle.repeated_parts.specs.UseSearch.MarkValues.Tables.{Known};

    ghost Value = { Known };

    ghost view = { λ a. a.entries.entries };
}

impl ConstantValues {
    /// No declarations.
    pub fn new(alloc: Global) -> Self
        ensures { result ≡ [] }
    {
        ConstantValues {
            entries: IndexMap::new(alloc),
        }
    }

    /// The constants of the marked declarations of packages, where these are the names of their files. Each declaration
    /// is looked at once, however many of its constants are marked. The only error is `NoMemory`.
    pub fn of(
        alloc: Global,
        packages: &[Package],
        scopes: &[PackageScopes],
        marks: &[MarkRef],
    ) -> Result<ConstantValues, NoMemory>
        requires { AreSmall scopes.now }
        ensures { IfOk result (AreValuesOf packages.now scopes.now (map mark_ref_of marks.now)) }
    {
        let mut table = ConstantValues::new(alloc);
        for mark in marks {
            table.add(alloc, packages, scopes, *mark)?;
        }
        Ok(table)
    }

    /// What the marked constant is declared as, where it is in the table. Takes one look-up.
    pub fn find(&self, mark: MarkRef) -> Option<ConstantValue<'_>>
        ensures { option_map value_of result ≡ value_in self.now (mark_ref_of mark) }
    {
        match self.values(mark) {
            None => None,
            Some(values) => values.get(mark.item),
        }
    }

    /// Looks at the declaration of a mark, as after a step that changed it. The only error is `NoMemory`.
    pub fn set(
        &mut self,
        alloc: Global,
        mark: MarkRef,
        file: &FileScopes,
        decl: &Decl,
    ) -> Result<(), NoMemory>
        requires { All (λ k. k < 2 ^ 32) file.now.imports.now }
        ensures { OnOk result (IsPut (key_of (mark_ref_of mark))
            (decl_values (λ s. s) (names_in file.now) (decl_of decl.now)) self.old self.new) }
    {
        let values = DeclaredValues::of(alloc, file, decl)?;
        self.put(mark, values)
    }

    /// The constants of the marked declaration.
    fn values(&self, mark: MarkRef) -> Option<&DeclaredValues>
        ensures { option_copied result ≡ values_at (key_of (mark_ref_of mark)) self.now }
    {
        self.entries.get(&(mark.package, (mark.file, mark.decl)))
    }

    /// Whether the marked declaration is in the table.
    fn has(&self, mark: MarkRef) -> bool
        ensures { result ≡ is_some (values_at (key_of (mark_ref_of mark)) self.now) }
    {
        match self.values(mark) {
            None => false,
            Some(_) => true,
        }
    }

    /// The marked declaration has these constants from now on.
    fn put(&mut self, mark: MarkRef, values: DeclaredValues) -> Result<(), NoMemory>
        ensures { OnOk result (IsPut (key_of (mark_ref_of mark)) values self.old self.new) }
    {
        self.entries
            .insert((mark.package, (mark.file, mark.decl)), values)?;
        Ok(())
    }

    /// Looks at the declaration of a mark, unless that was done before.
    fn add(
        &mut self,
        alloc: Global,
        packages: &[Package],
        scopes: &[PackageScopes],
        mark: MarkRef,
    ) -> Result<(), NoMemory>
        requires { AreSmall scopes.now }
        ensures { OnOk result ((done : List DeclKey) → AreKnown packages.now scopes.now done self.old
            → AreKnown packages.now scopes.now (done ++ key_of (mark_ref_of mark) ∷ []) self.new) }
    {
        if self.has(mark) {
            return Ok(());
        }
        let Some(decl) = marked_decl(packages, mark) else {
            return Ok(());
        };
        let Some(file) = marked_scopes(scopes, mark) else {
            return Ok(());
        };
        self.set(alloc, mark, file, decl)
    }
}
