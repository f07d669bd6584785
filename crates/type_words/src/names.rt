//! Names of types (Go specification, Qualified identifiers).

ghost use Rattle.std.specs.Prelude.{◌≡◌, ◌++◌, [], OnOk, slice_index_or};
ghost use Rattle.type_words.specs.TypeText.{name_text};

use crate::faults::TypeFault;
use go_tree::Text;

/// The most bytes that a text may have.
pub const MAX_TYPE_BYTES: usize = 65_536;

/// The number of the package in whose files a text stands, and the import paths of all packages.
#[derive(Clone, Copy)]
pub struct Home<'a> {
    pub number: u32,
    pub paths: &'a [Text],
}

/// Adds bytes, unless the text would be too long.
pub(crate) fn add(text: &mut Vec<u8>, bytes: &[u8]) -> Result<(), TypeFault>
    ensures { OnOk result (text.new.items ≡ text.old.items ++ bytes.now) }
{
    if bytes.len() > MAX_TYPE_BYTES.saturating_sub(text.len()) {
        return Err(TypeFault::TooLarge);
    }
    text.extend_from_slice(bytes)?;
    Ok(())
}

/// The import path of a package.
fn path_of<'a>(paths: &'a [Text], number: u32) -> &'a [u8]
    ensures { result.now ≡ slice_index_or paths.now number [] }
{
    match paths.get(number as usize) {
        Some(path) => path.items(),
        None => b"".as_slice(),
    }
}

/// Adds the name of a type, behind the import path of its package where that is another one.
pub(crate) fn add_name(
    text: &mut Vec<u8>,
    home: &Home,
    number: u32,
    name: &[u8],
) -> Result<(), TypeFault>
    ensures { OnOk result (text.new.items
        ≡ text.old.items ++ name_text home.now.number home.now.paths.now number name.now) }
{
    if number == home.number {
        return add(text, name);
    }
    add(text, path_of(home.paths, number))?;
    add(text, b".")?;
    add(text, name)
}
