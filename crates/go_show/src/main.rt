//! `go_show WORD FILE` shows a file of Go source, `go_show declared FOLDER` what a module declares, and `go_show check
//! FOLDER` whether a module is well typed.
//!
//! `tokens` writes its tokens, one a line: `START END KIND SPELLING`, with the spelling in
//! hexadecimal, or why the file has none: `BAD OFFSET` or `NOTUTF8 OFFSET`. `tree` writes `read`
//! where the file has a tree, or else the first of these that holds: `not UTF-8 OFFSET` or `bad
//! token OFFSET`, `unsupported OFFSET`, `too deep OFFSET`, `not read OFFSET`. `print` writes a file
//! that has a tree in the one layout, without its comments, and of another what `tree` writes; so do
//! the next words of a file without a tree. `names` writes each identifier, one a line: `OFFSET NAME`
//! and what the name means there, `local`, `import` or `package` with the offset at which it is
//! declared, `predeclared` or `nothing`. `parts` writes of each function the names that it declares,
//! `declared NAME ..`, and of each value of a variable outside functions those that are free in it,
//! `free NAME ..`. `marks` writes each mark `//go:fix inline` that means
//! something, `OFFSET KIND NAME` with the offset of the name, and then each other: `OFFSET bad:
//! REASON`. `uses` writes the name of each import and whether a declaration uses it, `used` or
//! `unused`. For these words the file is a package of its own, and an import whose spec gives no name
//! has the last element of its path.
//!
//! `go_show imports FILE WORD..` writes the file in which an import comes for each word `+PATH` or
//! `+NAME=PATH`, and those go whose path a word `-PATH` names. `go_show need FILE OFFSET PATH NAME
//! WORD..` writes by which name the file knows the package with this path and own name at the offset,
//! and ` new` where an import has to come for it; the words are names that are bound there, or, with
//! a `+`, names that other files of the package declare.
//!
//! `declared` reads the module in a folder as gofix does, and writes package by package, in the order of their
//! imports, a line `package PATH` and then one for each type, constant, variable, function and method that is
//! declared: `FILE:LINE:COL: DECLARATION`, with the type as Go writes it, and the value of a constant. Behind them
//! stands `FILE:LINE:COL: refused` for the first import or declaration that is refused. Of a folder that is no module
//! it writes what gofix does.
//!
//! `check` reads the module in a folder so too, and writes `typed` where it is well typed. Of one that isn't, and of a
//! folder that is no module, it writes gofix's line, with the place that is refused first.
#![tactic(auto)]

ghost use Rattle.std.specs.Prelude.{◌≤◌, IfOk, OnOk, length, vec_len};
ghost use Rattle.std.specs.Io.KnownBytes.{Appends};
ghost use Rattle.go_layout.specs.FileLayout.{file_layout};
ghost use Rattle.go_layout.specs.Layouts.{text_of};
ghost use Rattle.go_show.specs.Outcomes.{ShowsFile, ShowsTree};
ghost use Rattle.go_tree.specs.FileView.{file_of};

mod blocks;
mod checked;
mod declarations;
mod declared;
mod folder;
mod imports;
mod lines;
mod marks;
mod names;
mod needs;
mod parts;
mod places;
mod tree;
mod uses;
mod values;

use checked::check_folder;
use declared::{flushed, show_declared};
use go_parse::read_file;
use go_print::print_file;
use go_scan::{ScanError, scan};
use go_tree::{FileTree, MAX_FILE_BYTES};
use imports::write_imports;
use lines::write_tokens;
use marks::write_marks;
use names::write_names;
use needs::write_need;
use parts::write_parts;
use std::alloc::Global;
use std::io::{self, BufWriter, Write};
use std::process::ExitCode;
use std::rt::{Env, Files};
use std::{env, fs};
use thiserror::Error;
use tree::write_fault;
use uses::write_uses;

/// Why nothing is shown.
#[derive(Debug, Drop, Error)]
enum Fault {
    #[error("usage: go_show tokens|tree|print|names|parts|marks|uses FILE, or go_show imports|need FILE WORD.., or go_show declared|check FOLDER")]
    Usage,
    #[error("no module")]
    NoModule,
    #[error("{0}: cannot be read: {1}")]
    Unreadable(String, io::Error),
    #[error("{0}: has more than 4 MiB")]
    Large(String),
    #[error("{0}")]
    Io(#[from] io::Error),
}

/// What is shown of a file.
#[derive(Clone, Copy)]
enum Part {
    Tokens,
    Tree,
    Print,
    Names,
    Parts,
    Marks,
    Uses,
    Imports,
    Need,
}

fn part_of(word: &str) -> Option<Part> {
    match word {
        "tokens" => Some(Part::Tokens),
        "tree" => Some(Part::Tree),
        "print" => Some(Part::Print),
        "names" => Some(Part::Names),
        "parts" => Some(Part::Parts),
        "marks" => Some(Part::Marks),
        "uses" => Some(Part::Uses),
        "imports" => Some(Part::Imports),
        "need" => Some(Part::Need),
        _ => None,
    }
}

/// Whether words may stand behind the file's name.
fn takes_words(part: Part) -> bool {
    matches!(part, Part::Imports | Part::Need)
}

/// What the command's words ask for: what the module in a folder declares, whether one is well typed, or a part of a
/// file.
#[derive(Clone, Copy)]
enum Request {
    Declared,
    Check,
    File(Part),
}

/// What the first word asks for, where others stand behind the path or none do.
fn request_of(word: &str, has_more: bool) -> Option<Request> {
    match part_of(word) {
        Some(part) => {
            if has_more && !takes_words(part) {
                None
            } else {
                Some(Request::File(part))
            }
        }
        None => {
            if has_more {
                None
            } else if word == "declared" {
                Some(Request::Declared)
            } else if word == "check" {
                Some(Request::Check)
            } else {
                None
            }
        }
    }
}

/// The words of the command, the program's name before them.
fn words_of<R: Env + AllocGlobal>(rt: &R) -> Result<Vec<String>, Fault> {
    let words = env::args(rt)?;
    match words.collect::<Vec<String>>(rt.alloc()) {
        Ok(words) => Ok(words),
        Err(fault) => Err(Fault::Io(io::Error::from(fault))),
    }
}

/// That a path can't be read. Where there is no memory for the path, why it can't.
fn unreadable(alloc: Global, path: &str, fault: io::Error) -> Fault {
    match String::from_str(alloc, path) {
        Ok(path) => Fault::Unreadable(path, fault),
        Err(_) => Fault::Io(fault),
    }
}

fn too_large(alloc: Global, path: &str) -> Fault {
    match String::from_str(alloc, path) {
        Ok(path) => Fault::Large(path),
        Err(_) => Fault::Io(io::Error::from(io::ErrorKind::OutOfMemory)),
    }
}

fn text_of<R: Files + AllocGlobal>(rt: &R, path: &str) -> Result<Vec<u8>, Fault>
    ensures { IfOk result (λ text. vec_len text ≤ MAX_FILE_BYTES) }
{
    let text = match fs::read(rt, path) {
        Ok(text) => text,
        Err(fault) => return Err(unreadable(rt.alloc(), path, fault)),
    };
    if text.len() > MAX_FILE_BYTES as usize {
        return Err(too_large(rt.alloc(), path));
    }
    Ok(text)
}

/// Writes the tokens of a text, or why it has none.
fn write_scan<W: Write>(alloc: Global, out: &mut W, text: &[u8]) -> io::Result<()>
    requires { length text.now ≤ MAX_FILE_BYTES }
{
    match scan(alloc, text) {
        Ok(tokens) => write_tokens(alloc, out, tokens.items()),
        Err(ScanError::BadToken(offset)) => writeln!(out, "BAD {offset}"),
        Err(ScanError::NotUtf8(offset)) => writeln!(out, "NOTUTF8 {offset}"),
        Err(ScanError::NoMemory) => Err(io::Error::from(io::ErrorKind::OutOfMemory)),
    }
}

/// Writes whether a text has a tree.
#[tactic(auto, using(crate::proofs::OutcomeLemmas::shows_read, crate::proofs::OutcomeLemmas::shows_fault))]
fn write_tree<W: Write>(alloc: Global, out: &mut W, text: &[u8]) -> io::Result<()>
    requires { length text.now ≤ MAX_FILE_BYTES }
    ensures { OnOk result (ShowsTree text.now (W.contents out.old) (W.contents out.new)) }
{
    match read_file(alloc, text) {
        Ok(_) => writeln!(out, "read"),
        Err(fault) => write_fault(out, &fault),
    }
}

/// Writes a file in the one layout, without its comments.
fn write_file<W: Write>(alloc: Global, out: &mut W, file: &FileTree) -> io::Result<()>
    ensures { OnOk result (Appends (W.contents out.old) (W.contents out.new)
        (text_of (file_layout (file_of file.now)))) }
{
    let text = print_file(alloc, file)?;
    out.write_all(text.items())
}

/// Writes a file that has a tree in the one layout, and of another why it has none.
#[tactic(auto, using(crate::proofs::OutcomeLemmas::shows_print, crate::proofs::OutcomeLemmas::shows_reason))]
fn write_print<W: Write>(alloc: Global, out: &mut W, text: &[u8]) -> io::Result<()>
    requires { length text.now ≤ MAX_FILE_BYTES }
    ensures { OnOk result (ShowsFile text.now (W.contents out.old) (W.contents out.new)) }
{
    match read_file(alloc, text) {
        Ok(source) => write_file(alloc, out, &source.tree),
        Err(fault) => write_fault(out, &fault),
    }
}

/// The answer for a folder of which was told whether it holds such a module as was asked for. Where it doesn't, gofix's
/// line was written.
fn answer_of(alloc: Global, folder: &str, told: io::Result<bool>) -> Result<(), Fault> {
    match told {
        Ok(true) => Ok(()),
        Ok(false) => Err(Fault::NoModule),
        Err(fault) => Err(unreadable(alloc, folder, fault)),
    }
}

/// Writes a part of a file of this text.
fn write_part<W: Write>(
    alloc: Global,
    out: &mut W,
    part: Part,
    text: &[u8],
    more: &[String],
) -> io::Result<()>
    requires { length text.now ≤ MAX_FILE_BYTES }
{
    match part {
        Part::Tokens => write_scan(alloc, out, text),
        Part::Tree => write_tree(alloc, out, text),
        Part::Print => write_print(alloc, out, text),
        Part::Names => write_names(alloc, out, text),
        Part::Parts => write_parts(alloc, out, text),
        Part::Marks => write_marks(alloc, out, text),
        Part::Uses => write_uses(alloc, out, text),
        Part::Imports => write_imports(alloc, out, text, more),
        Part::Need => write_need(alloc, out, text, more),
    }
}

/// Writes a part of a file of this text to standard output.
fn show_text<R: Print + AllocGlobal>(
    rt: &R,
    part: Part,
    text: &[u8],
    more: &[String],
) -> io::Result<()>
    requires { length text.now ≤ MAX_FILE_BYTES }
{
    let mut out = BufWriter::new(rt.alloc(), io::writer(rt))?;
    let written = write_part(rt.alloc(), &mut out, part, text, more);
    flushed(&mut out, written)
}

/// Shows a part of a file.
fn show_file<R: Files + Print + AllocGlobal>(
    rt: &R,
    part: Part,
    path: &str,
    more: &[String],
) -> Result<(), Fault> {
    let text = text_of(rt, path)?;
    match show_text(rt, part, &text, more) {
        Ok(()) => Ok(()),
        Err(fault) => Err(Fault::Io(fault)),
    }
}

fn show<R: Env + Files + Print + AllocGlobal>(
    rt: &R,
    request: Request,
    path: &str,
    more: &[String],
) -> Result<(), Fault> {
    match request {
        Request::Declared => answer_of(rt.alloc(), path, show_declared(rt, path)),
        Request::Check => answer_of(rt.alloc(), path, check_folder(rt, path)),
        Request::File(part) => show_file(rt, part, path, more),
    }
}

/// Shows what words ask for.
fn show_words<R: Env + Files + Print + AllocGlobal>(rt: &R, words: &[String]) -> Result<(), Fault> {
    let [_, word, path, more @ ..] = words else {
        return Err(Fault::Usage);
    };
    match request_of(word.as_str(), !more.is_empty()) {
        Some(request) => show(rt, request, path.as_str(), more),
        None => Err(Fault::Usage),
    }
}

fn show_asked<R: Env + Files + Print + AllocGlobal>(rt: &R) -> Result<(), Fault> {
    let words = words_of(rt)?;
    show_words(rt, &words)
}

fn main(rt: HostRuntime) -> ExitCode {
    match show_asked(&rt) {
        Ok(()) => ExitCode::SUCCESS,
        // gofix's line says why.
        Err(Fault::NoModule) => ExitCode::from(1),
        Err(fault) => {
            let _ = eprintln!(rt; "go_show: {fault}");
            ExitCode::from(if matches!(fault, Fault::Usage) { 2 } else { 1 })
        }
    }
}
