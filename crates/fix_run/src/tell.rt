//! The line of a status, written in pieces and without memory.

ghost use Rattle.std.specs.Prelude.{◌≡◌, ◌<◌, ◌≤◌, [], ◌∷◌, ◌++◌, length, OnOk, OnErr};
ghost use Rattle.fix_io.specs.Causes.{Rose, HasPlainCause};
ghost use Rattle.fix_io.specs.Contents.{appended, IsPartOut};
ghost use Rattle.module_refusals.specs.Refused.{IsBelow};
ghost use Rattle.fix_run.specs.Lines.{line_of, refusal_line, IsOfFile};

use crate::status::Status;
use fix_io::{Failed, Sink, Tree, write_all};
use refusals::{Refusal, write_refusal};

fn tell_file<S: Sink>(out: &mut S, front: &str, path: &str) -> Result<(), Failed>
    ensures ok { OnOk result (S.contents out.new ≡ appended (S.contents out.old) (front.now ++ path.now ++ 10 ∷ [])) }
    ensures err { OnErr result
        (IsPartOut (S.contents out.old) (S.contents out.new) (front.now ++ path.now ++ 10 ∷ [])) }
    ensures cause { HasPlainCause (S.faults out.old) (S.faults out.new) result }
{
    match write_all(out, front.as_bytes()) {
        Ok(()) => {}
        Err(_) => return Err(Failed),
    }
    match write_all(out, path.as_bytes()) {
        Ok(()) => {}
        Err(_) => return Err(Failed),
    }
    match write_all(out, b"\n") {
        Ok(()) => Ok(()),
        Err(_) => Err(Failed),
    }
}

fn tell_refusal<T: Tree, S: Sink>(out: &mut S, tree: &T, refusal: &Refusal) -> Result<(), Failed>
    requires { IsBelow (length (T.listed tree.now)) refusal.now.file }
    ensures ok { OnOk result
        (S.contents out.new ≡ appended (S.contents out.old) (refusal_line refusal.now (T.listed tree.now))) }
    ensures err { OnErr result
        (IsPartOut (S.contents out.old) (S.contents out.new) (refusal_line refusal.now (T.listed tree.now))) }
    ensures cause { HasPlainCause (S.faults out.old) (S.faults out.new) result }
{
    match refusal.file {
        Some(i) => write_refusal(out, refusal, tree.path(i).as_bytes()),
        None => write_refusal(out, refusal, b""),
    }
}

fn tell_line<T: Tree, S: Sink>(status: &Status, tree: &T, out: &mut S) -> Result<(), Failed>
    requires { IsOfFile status.now (length (T.listed tree.now)) }
    ensures ok { OnOk result
        (S.contents out.new ≡ appended (S.contents out.old) (line_of status.now (T.listed tree.now))) }
    ensures err { OnErr result
        (IsPartOut (S.contents out.old) (S.contents out.new) (line_of status.now (T.listed tree.now))) }
    ensures cause { HasPlainCause (S.faults out.old) (S.faults out.new) result }
{
    match status {
        Status::Done | Status::Found | Status::ReportFault => Ok(()),
        Status::Usage => write_all(
            out,
            b"gofix: usage: gofix [--fix] [--only PREFIX] [--load N]\n",
        ),
        Status::NoMemory => write_all(out, b"gofix: out of memory\n"),
        Status::ListFault => write_all(out, b"gofix: can't list files\n"),
        Status::ReadFault(i) => tell_file(out, "gofix: can't read ", tree.path(*i)),
        Status::Refused(refusal) => tell_refusal(out, tree, refusal),
        Status::WriteFault(i) => tell_file(out, "gofix: can't replace ", tree.path(*i)),
    }
}

/// Writes the line of a status, if it has one. A fault of the sink leaves a front of it.
pub fn tell_status<T: Tree, S: Sink>(status: &Status, tree: &T, out: &mut S)
    requires { IsOfFile status.now (length (T.listed tree.now)) }
    ensures part { IsPartOut (S.contents out.old) (S.contents out.new) (line_of status.now (T.listed tree.now)) }
    ensures whole { ¬ Rose (S.faults out.old) (S.faults out.new) →
        S.contents out.new ≡ appended (S.contents out.old) (line_of status.now (T.listed tree.now)) }
    ensures later { S.faults out.old ≤ S.faults out.new }
{
    match tell_line(status, tree, out) {
        Ok(()) | Err(_) => {}
    }
}
