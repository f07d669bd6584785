//! What the words ask for, as clap reads them.

ghost use Rattle.std.specs.Prelude.{◌≡◌, [], IfErr, IfOk, codes, false, map, string_bytes, unwrap_or};
ghost use Rattle.clap.specs.Words.{app_of, first_value, found_of};
ghost use Rattle.command_words.specs.Words.{IsRequest, are_accepted, gofix, is_text};

use clap::error::ErrorKind;
use clap::{Arg, ArgAction, ArgMatches, Command};
use std::alloc::{AllocError, Global};

/// What the words ask for.
#[derive(Clone, Copy, Debug, PartialEq, Eq)]
pub struct Request<'a> {
    /// `--fix`: the changed files are written.
    pub fix: bool,
    /// `--only PREFIX`: only declarations whose full names begin with it count as marked. It is empty where it isn't
    /// given, and then it narrows nothing.
    pub only: &'a str,
}

/// Why the words ask for nothing.
#[derive(Clone, Copy, Debug, PartialEq, Eq)]
pub enum WordsFault {
    /// They aren't the command's words.
    Usage,
    /// Memory was refused, whatever they are.
    NoMemory,
}

impl From<AllocError> for WordsFault {
    ghost use Rattle.std.specs.Prelude.{◌≡◌};
    ghost use Rattle.command_words.specs.declared.request.WordsFault.TheVariants.{NoMemory};

    ghost from_gives = { λ _ e. e ≡ NoMemory };

    fn from(_: AllocError) -> Self {
        WordsFault::NoMemory
    }
}

/// The command, as it is described to clap.
fn command<'a>(alloc: Global) -> Result<Command<'a>, AllocError>
    ensures { IfOk result (λ c. app_of c ≡ gofix) }
{
    let fix = Arg::new(alloc, "fix")
        .long("fix")
        .action(ArgAction::SetTrue);
    let only = Arg::new(alloc, "only").long("only").action(ArgAction::Set);
    let command = Command::new(alloc, "gofix").no_binary_name(true);
    command.arg(fix)?.arg(only)
}

/// Whether `--fix` was found.
fn has_fix(matches: &ArgMatches) -> bool
    ensures { result ≡ is_text (codes "true") (first_value (found_of matches.now) (codes "fix")) }
{
    match matches.get_str("fix") {
        Some(text) => text == "true",
        None => false,
    }
}

/// The prefix of `--only`, or nothing.
fn prefix<'a>(matches: &ArgMatches<'a>) -> &'a str
    ensures { result.now ≡ unwrap_or (first_value (found_of matches.now) (codes "only")) [] }
{
    match matches.get_str("only") {
        Some(text) => text,
        None => "",
    }
}

/// What the words ask for. `Usage` comes exactly where clap refuses them for another cause than want of memory:
/// `--help` is refused, since it asks for nothing that is built.
pub fn read_words<'a>(alloc: Global, words: &'a [String]) -> Result<Request<'a>, WordsFault>
    ensures read { IfOk result (λ r. IsRequest (map string_bytes words.entry.now) r) }
    ensures refused { IfErr result
        (λ e. e ≡ WordsFault.Usage → are_accepted (map string_bytes words.entry.now) ≡ false) }
{
    let command = command(alloc)?;
    match command.try_get_matches_from(words) {
        Ok(matches) => Ok(Request {
            fix: has_fix(&matches),
            only: prefix(&matches),
        }),
        Err(error) => {
            if error.kind() == ErrorKind::OutOfMemory {
                return Err(WordsFault::NoMemory);
            }
            Err(WordsFault::Usage)
        }
    }
}
