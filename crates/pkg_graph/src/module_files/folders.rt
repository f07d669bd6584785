//! The folder of a file.

ghost use Rattle.std.specs.Prelude.{◌≡◌};
ghost use Rattle.pkg_graph.specs.ModuleFiles.Pieces.{folder_of, file_name};

/// The folder of a path, and the name of the file in it.
pub fn folder_and_name(path: &[u8]) -> (&[u8], &[u8])
    ensures folder { result.0.now ≡ folder_of path.now }
    ensures name { result.1.now ≡ file_name path.now }
{
    let mut end = 0;
    let mut start = 0;
    for (i, byte) in path.iter().enumerate() {
        if *byte == b'/' {
            end = i;
            start = i + 1;
        }
    }
    (&path[..end], &path[start..])
}
