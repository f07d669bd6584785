//! Replacing the files that a plan changes.

ghost use Rattle.std.specs.Prelude.{◌≡◌, ℕ, ◌<◌, ◌≤◌, [], length, take, slice_index_or, All, IfErr};
ghost use Rattle.std.specs.Prelude.{OnOk, Some};
ghost use Rattle.std.specs.Option.{option_map};
ghost use Rattle.fix_io.specs.declared.Call.{Call};
ghost use Rattle.fix_io.specs.Causes.{Rose};
ghost use Rattle.fix_io.specs.Writes.{written};
ghost use Rattle.fix_run.specs.Causes.{IsQuiet};
ghost use Rattle.fix_run.specs.Files.{writes_of};

use fix_io::Tree;
use run_plans::planned_files::changed_files::ChangedFile;

/// Replaces the files in order, up to the first that fails, whose number it answers. Takes no memory.
pub fn apply<T: Tree>(files: &[ChangedFile], tree: &mut T) -> Result<(), u32>
    requires { All (λ f. f.index < length (T.listed tree.old)) files.now }
    ensures ok { OnOk result (T.held tree.new ≡ option_map (written (writes_of files.now)) (T.held tree.old)) }
    ensures err { IfErr result
        (λ i. (k : ℕ) × (k < length files.now) × (i ≡ (slice_index_or (writes_of files.now) k (0, [])).0)
        × (i < length (T.listed tree.new))
        × (T.held tree.new ≡ option_map (written (take k (writes_of files.now))) (T.held tree.old))) }
    ensures paths { T.listed tree.new ≡ T.listed tree.old }
    ensures later { T.faults tree.old ≤ T.faults tree.new }
    ensures quiet { OnOk result
        (IsQuiet (T.faults tree.old) (T.faults tree.new) (T.failed tree.old) (T.failed tree.new)) }
    ensures cause { IfErr result
        (λ i. Rose (T.faults tree.old) (T.faults tree.new) × (T.failed tree.new ≡ Some (Call.Replace i))) }
{
    for file in files {
        match tree.replace(file.index, file.bytes.items()) {
            Ok(()) => {}
            Err(_) => return Err(file.index),
        }
    }
    Ok(())
}
