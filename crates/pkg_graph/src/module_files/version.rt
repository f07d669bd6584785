//! The version of Go that a module asks for.

ghost use Rattle.std.specs.Prelude.{◌≡◌, ◌≤◌, length};
ghost use Rattle.std.specs.List.{prefix_len};
ghost use Rattle.pkg_graph.specs.ModuleFiles.ModuleFile.{is_decimal, digits, behind_digits, number_of, is_number, is_recent};
ghost use Rattle.pkg_graph.specs.ModuleFiles.ModuleFile.{is_minor, is_version};

use crate::module_files::fields::has_bytes;

/// Numbers of a version are below this one.
const NUMBER_BOUND: u32 = 1_000_000;

fn is_decimal(byte: u8) -> bool
    ensures { result ≡ is_decimal byte }
{
    byte.is_ascii_digit()
}

fn digits_len(bytes: &[u8]) -> usize
    ensures count { result ≡ prefix_len is_decimal bytes.now }
    ensures within { result ≤ length bytes.now }
{
    for (i, byte) in bytes.iter().enumerate() {
        if !is_decimal(*byte) {
            return i;
        }
    }
    bytes.len()
}

#[tactic(auto, unfolding(crate::specs::ModuleFiles::ModuleFile::digits))]
fn digits(bytes: &[u8]) -> &[u8]
    ensures { result.now ≡ digits bytes.now }
{
    &bytes[..digits_len(bytes)]
}

#[tactic(auto, unfolding(crate::specs::ModuleFiles::ModuleFile::behind_digits))]
fn behind_digits(bytes: &[u8]) -> &[u8]
    ensures { result.now ≡ behind_digits bytes.now }
{
    &bytes[digits_len(bytes)..]
}

fn number_of(digits: &[u8]) -> u32
    ensures { result ≡ number_of digits.now }
{
    let mut number = 0;
    for digit in digits {
        let next = number * 10 + u32::from(digit.saturating_sub(b'0'));
        number = next.min(NUMBER_BOUND);
    }
    number
}

#[tactic(auto, unfolding(crate::specs::ModuleFiles::ModuleFile::is_number))]
fn is_number(digits: &[u8]) -> bool
    ensures { result ≡ is_number digits.now }
{
    has_bytes(digits) && number_of(digits) < NUMBER_BOUND
}

fn is_recent(major: u32, minor: u32) -> bool
    ensures { result ≡ is_recent major minor }
{
    major > 1 || (major == 1 && minor >= 22)
}

#[tactic(auto, unfolding(crate::specs::ModuleFiles::ModuleFile::is_minor))]
fn is_minor(major: u32, bytes: &[u8]) -> bool
    ensures { result ≡ is_minor major bytes.now }
{
    let Some((first, rest)) = bytes.split_first() else {
        return false;
    };
    let minor = digits(rest);
    *first == b'.' && is_number(minor) && is_recent(major, number_of(minor))
}

/// Whether this is a version from 1.22 on: digits, a dot, digits and any rest.
#[tactic(auto, unfolding(crate::specs::ModuleFiles::ModuleFile::is_version))]
pub(crate) fn is_version(version: &[u8]) -> bool
    ensures { result ≡ is_version version.now }
{
    let major = digits(version);
    is_number(major) && is_minor(number_of(major), behind_digits(version))
}
