//! The top call.

ghost use Rattle.std.specs.Prelude.{◌≡◌, ◌⊎◌, ℕ, map, IfSome, Some, string_bytes, false, true};
ghost use Rattle.fix_io.specs.Causes.{Rose};
ghost use Rattle.fix_io.specs.Contents.{appended, IsPartOut};
ghost use Rattle.command_words.specs.Words.{are_accepted, has_fix, only_of};
ghost use Rattle.fix_run.specs.Lines.{line_of, IfTold, IfOut};
ghost use Rattle.fix_run.specs.Causes.{HasCause, PassedChecks, IfNoFault, IfUnwritten, IsQuiet};
ghost use Rattle.fix_run.specs.Verdict.{Verdict, HasEnded, IsVerdict, IsEnd, IsRefused, IsAnswer, IsUpTo};
ghost use Rattle.fix_run.specs.Headline.{IsInlined};

use crate::apply::apply;
use crate::prepare::prepare;
use crate::report::report_only;
use crate::requests::read_request;
use crate::status::Status;
use crate::tell::tell_status;
use fix_io::{Sink, Tree, write_all};
use run_plans::planned_modules::plans_inline_modules;
use std::alloc::Global;

/// Reads the module that the tree holds, and replaces the uses of its marked constants. With `--fix` it writes the
/// files that change; it writes the report in any case. `words` are those after the program's name.
pub fn gofix<T: Tree, S: Sink>(alloc: Global, words: &[String], tree: &mut T, out: &mut S) -> Status
    // The words decide alone whether they are accepted, where there is memory to read them.
    ensures usage { result ≡ Status.Usage → are_accepted (map string_bytes words.now) ≡ false }
    ensures accepted { are_accepted (map string_bytes words.now) ≡ false →
        (result ≡ Status.Usage) ⊎ (result ≡ Status.NoMemory) }

    // What a status says of the files that were held.
    ensures unwritten { IfUnwritten result (T.held tree.new ≡ T.held tree.old) }
    ensures unfixed { has_fix (map string_bytes words.now) ≡ false → T.held tree.new ≡ T.held tree.old }
    ensures done { IfOut result (IfSome (T.held tree.old)
        (λ files. HasEnded (map string_bytes words.now) files result (T.held tree.new))) }
    ensures headline { result ≡ Status.Done → has_fix (map string_bytes words.now) ≡ true →
        IfSome (T.held tree.old)
        (λ files. IsInlined (only_of (map string_bytes words.now)) files (T.held tree.new)
        (S.contents out.old) (S.contents out.new)) }
    ensures refused { (r : _) → result ≡ Status.Refused r →
        IfSome (T.held tree.old) (λ files. IsRefused (map string_bytes words.now) files r) }
    ensures write_fault { (i : ℕ) → result ≡ Status.WriteFault i →
        IfSome (T.held tree.old) (λ files. IsUpTo i (map string_bytes words.now) files (T.held tree.new)) }
    ensures report_fault { result ≡ Status.ReportFault →
        IfSome (T.held tree.old)
        (λ files. (v : Verdict) × IsVerdict (map string_bytes words.now) files v
        × IsEnd (map string_bytes words.now) files v
        × (T.held tree.new ≡ Some v.files) × IsPartOut (S.contents out.old) (S.contents out.new) v.bytes) }

    // What is written.
    ensures report { IfOut result (IfSome (T.held tree.old)
        (λ files. (v : Verdict) × IsVerdict (map string_bytes words.now) files v
        × (S.contents out.new ≡ appended (S.contents out.old) v.bytes))) }
    ensures line { IfTold result
        (IsPartOut (S.contents out.old) (S.contents out.new) (line_of result (T.listed tree.new))) }
    ensures whole_line { IfTold result
        (¬ Rose (S.faults out.old) (S.faults out.new) →
        S.contents out.new ≡ appended (S.contents out.old) (line_of result (T.listed tree.new))) }

    // Each fault has its cause, and each answer comes only where the checks before it passed.
    ensures cause { HasCause result (Rose (T.faults tree.old) (T.faults tree.new)) (T.failed tree.new) }
    ensures quiet { IfNoFault result
        (IsQuiet (T.faults tree.old) (T.faults tree.new) (T.failed tree.old) (T.failed tree.new)) }
    ensures report_cause { result ≡ Status.ReportFault → Rose (S.faults out.old) (S.faults out.new) }
    ensures passed { PassedChecks result (T.listed tree.new) }

    // Without a fault and with memory, the verdict is answered.
    ensures complete { ¬ Rose (T.faults tree.old) (T.faults tree.new) → ¬ Rose (S.faults out.old) (S.faults out.new) →
        IfSome (T.held tree.old) (λ files. IsAnswer (map string_bytes words.now) files result) }
{
    plans_inline_modules();
    let request = match read_request(alloc, words) {
        Ok(request) => request,
        Err(status) => {
            tell_status(&status, tree, out);
            return status;
        }
    };
    let plan = match prepare(alloc, request.only, tree) {
        Ok(plan) => plan,
        Err(status) => {
            tell_status(&status, tree, out);
            return status;
        }
    };
    if !request.fix {
        return report_only(&plan, out);
    }
    match apply(&plan.writes, tree) {
        Ok(()) => {}
        Err(i) => {
            tell_status(&Status::WriteFault(i), tree, out);
            return Status::WriteFault(i);
        }
    }
    match write_all(out, plan.report.items()) {
        Ok(()) => Status::Done,
        Err(_) => Status::ReportFault,
    }
}
