//! A part that names a member of a package block.

ghost use Rattle.std.specs.Prelude.{◌≡◌, ◌++◌, OnOk, map};
ghost use Rattle.member_uses.specs.Uses.{used};
ghost use Rattle.member_uses.specs.Views.{used_of};

use go_tree::{Name, NoMemory, Span};

/// A part that names a member of a package block: where it stands, the number of the package, the member's name, and
/// whether it is the key of an element, which may be the name of a field instead (Go specification, Composite literals).
#[derive(Clone, Copy)]
pub struct MemberUse<'a> {
    pub span: Span,
    pub package: usize,
    pub name: &'a Name,
    pub is_key: bool,
}

/// One more use, where there is a package.
pub(crate) fn put<'a>(
    span: Span,
    is_key: bool,
    home: Option<usize>,
    name: &'a Name,
    list: &mut Vec<MemberUse<'a>>,
) -> Result<(), NoMemory>
    ensures { OnOk result (map used_of list.new.items
        ≡ map used_of list.old.items ++ used span is_key home name.now) }
{
    if let Some(package) = home {
        list.push(MemberUse {
            span,
            package,
            name,
            is_key,
        })?;
    }
    Ok(())
}
