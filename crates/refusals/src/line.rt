//! The line of a refusal, written in pieces and without memory.

ghost use Rattle.std.specs.Prelude.{◌≡◌, OnErr, OnOk, map};
ghost use Rattle.std.specs.List.{concat};
ghost use Rattle.fix_io.specs.Causes.{HasPlainCause};
ghost use Rattle.fix_io.specs.Contents.{IsPartOut, appended};
ghost use Rattle.refusals.specs.Line.{line_at, line_in, line_of};

use crate::refusal::{Detail, Refusal};
use fix_io::{Failed, Sink, write_all};
use go_tree::Place;
use itoa::Buffer;

/// Writes the pieces one after another.
fn write_pieces<S: Sink>(out: &mut S, pieces: &[&[u8]]) -> Result<(), Failed>
    ensures ok { OnOk result
        (S.contents out.new ≡ appended (S.contents out.old) (concat (map (λ p. p.now) pieces.now))) }
    ensures err { OnErr result
        (IsPartOut (S.contents out.old) (S.contents out.new) (concat (map (λ p. p.now) pieces.now))) }
    ensures cause { HasPlainCause (S.faults out.old) (S.faults out.new) result }
{
    for piece in pieces {
        match write_all(out, piece) {
            Ok(()) => {}
            Err(_) => return Err(Failed),
        }
    }
    Ok(())
}

/// Writes the line of what stands at a place of the file with this path.
fn write_at<S: Sink>(out: &mut S, path: &[u8], place: Place, detail: &Detail) -> Result<(), Failed>
    ensures ok { OnOk result
        (S.contents out.new ≡ appended (S.contents out.old) (line_at path.now place detail.now)) }
    ensures err { OnErr result
        (IsPartOut (S.contents out.old) (S.contents out.new) (line_at path.now place detail.now)) }
    ensures cause { HasPlainCause (S.faults out.old) (S.faults out.new) result }
{
    let mut number = Buffer::new();
    let mut line = Buffer::new();
    let mut col = Buffer::new();
    let pieces = [
        b"gofix: ".as_slice(),
        number.format(detail.number()).as_bytes(),
        b" ".as_slice(),
        path,
        b":".as_slice(),
        line.format(place.line).as_bytes(),
        b":".as_slice(),
        col.format(place.col).as_bytes(),
        b": ".as_slice(),
        detail.text(),
        b"\n".as_slice(),
    ];
    write_pieces(out, &pieces)
}

/// Writes the line of what stands in this whole.
fn write_in<S: Sink>(out: &mut S, whole: &[u8], detail: &Detail) -> Result<(), Failed>
    ensures ok { OnOk result
        (S.contents out.new ≡ appended (S.contents out.old) (line_in whole.now detail.now)) }
    ensures err { OnErr result
        (IsPartOut (S.contents out.old) (S.contents out.new) (line_in whole.now detail.now)) }
    ensures cause { HasPlainCause (S.faults out.old) (S.faults out.new) result }
{
    let mut number = Buffer::new();
    let pieces = [
        b"gofix: ".as_slice(),
        number.format(detail.number()).as_bytes(),
        b" ".as_slice(),
        whole,
        b": ".as_slice(),
        detail.text(),
        b"\n".as_slice(),
    ];
    write_pieces(out, &pieces)
}

/// Writes the line of a refusal. `path` is that of the file that it names; it may be any where it names none. A fault
/// of the sink leaves a front of the line. Takes no memory.
pub fn write_refusal<S: Sink>(out: &mut S, refusal: &Refusal, path: &[u8]) -> Result<(), Failed>
    ensures ok { OnOk result
        (S.contents out.new ≡ appended (S.contents out.old) (line_of refusal.now path.now)) }
    ensures err { OnErr result
        (IsPartOut (S.contents out.old) (S.contents out.new) (line_of refusal.now path.now)) }
    ensures cause { HasPlainCause (S.faults out.old) (S.faults out.new) result }
{
    match refusal.file {
        None => write_in(out, refusal.detail.whole(), &refusal.detail),
        Some(_) => match refusal.place {
            None => write_in(out, path, &refusal.detail),
            Some(place) => write_at(out, path, place, &refusal.detail),
        },
    }
}
