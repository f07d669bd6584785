//! Laws of import paths.

ghost use Rattle.std.specs.Prelude.{◌≡◌, true, List, ℕ};
ghost use Rattle.pkg_graph.specs.ModuleFiles.Internal.{may_import, MayImport};

/// A path may be imported exactly where each of its elements `internal` allows it.
pub fn internal_elements_decide()
    ensures allowed { (from path : List ℕ) → MayImport from path → may_import from path ≡ true }
    ensures each { (from path : List ℕ) → may_import from path ≡ true → MayImport from path }
{}
