//! Internal packages.

ghost use Rattle.std.specs.Prelude.{◌≡◌, ◌≤◌, length};
ghost use Rattle.pkg_graph.specs.ModuleFiles.Internal.{begins_element, is_start, is_internal_at, lies_within, passes};
ghost use Rattle.pkg_graph.specs.ModuleFiles.Internal.{may_import};

const INTERNAL: &[u8; 8] = b"internal";

fn begins_element(bytes: &[u8]) -> bool
    ensures { result ≡ begins_element bytes.now }
{
    match bytes {
        [byte, ..] => *byte == b'/',
        [] => true,
    }
}

fn is_start(path: &[u8], k: usize) -> bool
    requires { k ≤ length path.now }
    ensures { result ≡ is_start path.now k }
{
    k == 0 || begins_element(&path[k - 1..])
}

fn is_internal_at(path: &[u8], k: usize) -> bool
    requires { k ≤ length path.now }
    ensures { result ≡ is_internal_at path.now k }
{
    is_start(path, k)
        && path[k..].starts_with(INTERNAL)
        && begins_element(&path[k + INTERNAL.len()..])
}

fn lies_within(from: &[u8], path: &[u8], k: usize) -> bool
    requires { k ≤ length path.now }
    ensures { result ≡ lies_within from.now path.now k }
{
    k == 0 || from == &path[..k - 1] || from.starts_with(&path[..k])
}

#[tactic(auto, unfolding(crate::specs::ModuleFiles::Internal::passes))]
fn passes(from: &[u8], path: &[u8], k: usize) -> bool
    requires { k ≤ length path.now }
    ensures { result ≡ passes from.now path.now k }
{
    !is_internal_at(path, k) || lies_within(from, path, k)
}

/// Whether the package at `from` may import the path: for each element `internal` of the path,
/// `from` is the path before that element or lies below it. Every path lies below the empty one.
/// (The go command's documentation, Internal Directories.)
#[tactic(auto, using(crate::proofs::ModuleFiles::InternalLaws::below_more))]
pub fn may_import(from: &[u8], path: &[u8]) -> bool
    ensures { result ≡ may_import from.now path.now }
{
    for k in 0..path.len() {
        if !passes(from, path, k) {
            return false;
        }
    }
    true
}
