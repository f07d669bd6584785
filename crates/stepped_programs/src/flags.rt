//! Files that are looked at again after a step.

ghost use Rattle.std.specs.Prelude.{◌<◌, length};
ghost use Rattle.stepped_programs.specs.Flags.{AreLeftSettled, AreUnsettled, IsLeftSettled};

use programs::{PackageFiles, Users};

/// The file with this number isn't settled any more, if it uses a constant of the declaration.
fn unsettle_file(
    settled: &mut [bool],
    home: usize,
    file: usize,
    users: &Users,
    decl: (usize, (usize, usize)),
)
    requires { file < length settled.old }
    ensures { IsLeftSettled users.now decl home file settled.old settled.new }
{
    if !users.has(decl, (home, file)) {
        return;
    }
    settled[file] = false;
}

/// So it is with each file of the package with this number.
fn unsettle_files(settled: &mut [bool], home: usize, users: &Users, decl: (usize, (usize, usize)))
    ensures { AreLeftSettled users.now decl home settled.old settled.new }
{
    for file in 0..settled.len() {
        unsettle_file(settled, home, file, users, decl);
    }
}

/// The files that use a constant of the declaration aren't settled any more; all else stays. One look-up for each file.
pub(crate) fn unsettle(files: &mut [PackageFiles], users: &Users, decl: (usize, (usize, usize)))
    ensures { AreUnsettled users.now decl files.old files.new }
{
    for home in 0..files.len() {
        unsettle_files(&mut files[home].settled, home, users, decl);
    }
}
