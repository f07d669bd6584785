//! A line for each declaration of a module's packages, and for the first that is refused.

ghost use Rattle.std.specs.Prelude.{◌≡◌, length, true};
ghost use Rattle.type_table.specs.Rows.{IdsBelow};
ghost use Rattle.initial_values.specs.ValueBlocks.Values.{AreThere};

use crate::places::{Cursor, path_of};
use crate::values::value_line;
use go_tree::{FuncDecl, NameAtList, NoMemory, Place, Text, TypeSpec};
use header_order::RefusedPlace;
use package_blocks::{HeaderKind, PackageHeader};
use pkg_graph::{Package, SourceTree};
use source_files::SourceFile;
use std::alloc::{AllocError, Global};
use std::io::{self, Write};
use type_table::operand_rules::ConstTable;
use type_table::type_relations::Env;
use type_table::{TypeId, TypeNode};
use type_words::{Home, TypeFault, signature_text, type_text};
use typed_names::{Blocks, Entity};

/// What packages declare: the types and constants, what names mean, the headers with a mark for each
/// that is refused, and the import paths of packages by their numbers.
#[derive(Clone, Copy)]
pub(crate) struct Declarations<'a> {
    pub(crate) types: &'a Env,
    pub(crate) consts: &'a ConstTable,
    pub(crate) blocks: &'a Blocks,
    pub(crate) headers: &'a [PackageHeader<'a>],
    pub(crate) marks: &'a [bool],
    pub(crate) paths: &'a [Text],
}

/// What stands for a type that is too large to be written.
const TOO_LARGE: &[u8] = b"...";

/// Adds the text of a type, or what stands for one that is too large.
pub(crate) fn push_text(
    line: &mut Vec<u8>,
    text: Result<Vec<u8>, TypeFault>,
) -> Result<(), NoMemory> {
    match text {
        Ok(text) => Ok(line.extend_from_slice(&text)?),
        Err(TypeFault::TooLarge) => Ok(line.extend_from_slice(TOO_LARGE)?),
        Err(TypeFault::NoMemory) => Err(AllocError),
    }
}

/// The types of a tuple.
fn members(types: &Env, t: TypeId) -> &[TypeId]
    ensures { IdsBelow (length types.now.rows) result.now }
{
    if !types.has(t) {
        return &[];
    }
    match types.node(t) {
        TypeNode::Tuple(members) => &members.items,
        _ => &[],
    }
}

/// Whether the table has all types.
fn has_all(types: &Env, ids: &[TypeId]) -> bool
    ensures { result ≡ true → IdsBelow (length types.now.rows) ids.now }
{
    for t in ids {
        if !types.has(*t) {
            return false;
        }
    }
    true
}

/// Adds `type NAME TYPE`, with the underlying type, or `type NAME = TYPE` of an alias.
fn push_type(
    alloc: Global,
    line: &mut Vec<u8>,
    types: &Env,
    home: &Home,
    spec: &TypeSpec,
    t: TypeId,
) -> Result<(), NoMemory> {
    if !types.has(t) {
        return Ok(());
    }
    line.extend_from_slice(b"type ")?;
    line.extend_from_slice(spec.name.name.items())?;
    line.extend_from_slice(if spec.alias {
        b" = ".as_slice()
    } else {
        b" ".as_slice()
    })?;
    let shown = if spec.alias { t } else { types.under(t) };
    push_text(line, type_text(alloc, types, home, shown))
}

/// Adds `func NAME SIGNATURE`.
fn push_function(
    alloc: Global,
    line: &mut Vec<u8>,
    types: &Env,
    home: &Home,
    name: &[u8],
    params: TypeId,
    results: TypeId,
) -> Result<(), NoMemory> {
    line.extend_from_slice(b"func ")?;
    line.extend_from_slice(name)?;
    let text = signature_text(
        alloc,
        types,
        home,
        members(types, params),
        members(types, results),
    );
    push_text(line, text)
}

/// Adds `func (TYPE) NAME SIGNATURE`, if the type has such a method.
fn push_method(
    alloc: Global,
    line: &mut Vec<u8>,
    types: &Env,
    home: &Home,
    t: TypeId,
    name: &[u8],
) -> Result<(), NoMemory> {
    if !types.has(t) {
        return Ok(());
    }
    let Some(method) = types.method(t, name) else {
        return Ok(());
    };
    let params = &method.of.params.items;
    let results = &method.of.results.items;
    if !has_all(types, params) || !has_all(types, results) {
        return Ok(());
    }
    line.extend_from_slice(if method.pointer {
        b"func (*".as_slice()
    } else {
        b"func (".as_slice()
    })?;
    push_text(line, type_text(alloc, types, home, t))?;
    line.extend_from_slice(b") ")?;
    line.extend_from_slice(name)?;
    push_text(line, signature_text(alloc, types, home, params, results))
}

/// Adds what a function without a receiver declares, or a method, if it is known.
fn push_func(
    alloc: Global,
    line: &mut Vec<u8>,
    declared: &Declarations,
    home: &Home,
    function: &FuncDecl,
) -> Result<(), NoMemory> {
    let name = function.name.name.items();
    match &function.receiver {
        Some(receiver) => match declared.blocks.find(home.number, receiver.of.name.items()) {
            Some(Entity::TypeName(t)) => push_method(alloc, line, declared.types, home, t, name),
            _ => Ok(()),
        },
        None => match declared.blocks.find(home.number, name) {
            Some(Entity::Function { params, results }) => {
                push_function(alloc, line, declared.types, home, name, params, results)
            }
            _ => Ok(()),
        },
    }
}

/// What the header of a type declares in a package, if it is known; a blank name is not.
fn type_line(
    alloc: Global,
    declared: &Declarations,
    home: &Home,
    spec: &TypeSpec,
) -> Result<Vec<u8>, NoMemory> {
    let mut line = Vec::new(alloc);
    match declared.blocks.find(home.number, spec.name.name.items()) {
        Some(Entity::TypeName(t)) => { push_type(alloc, &mut line, declared.types, home, spec, t)? }
        _ => {}
    }
    Ok(line)
}

/// What the header of a function or a method declares, if it is known.
fn func_line(
    alloc: Global,
    declared: &Declarations,
    home: &Home,
    function: &FuncDecl,
) -> Result<Vec<u8>, NoMemory> {
    let mut line = Vec::new(alloc);
    push_func(alloc, &mut line, declared, home, function)?;
    Ok(line)
}

/// Writes `PATH:LINE:COL: WORDS`, unless there are none.
fn write_line<W: Write>(out: &mut W, path: &[u8], place: Place, words: &[u8]) -> io::Result<()> {
    if words.is_empty() {
        return Ok(());
    }
    out.write_all(path)?;
    write!(out, ":{}:{}: ", place.line, place.col)?;
    out.write_all(words)?;
    out.write_all(b"\n")
}

/// Writes a line for each of the names that means a constant or a variable.
fn write_values<W: Write>(
    alloc: Global,
    out: &mut W,
    path: &[u8],
    place: Place,
    declared: &Declarations,
    home: &Home,
    names: &NameAtList,
) -> io::Result<()>
    requires { AreThere declared.now.types.now declared.now.consts.now declared.now.blocks.now }
{
    for name in names.items() {
        let words = value_line(alloc, declared, home, name.name.items())?;
        write_line(out, path, place, &words)?;
    }
    Ok(())
}

/// Writes a line for each name that a header declares and that is known.
fn write_header<W: Write>(
    alloc: Global,
    out: &mut W,
    path: &[u8],
    place: Place,
    declared: &Declarations,
    home: &Home,
    header: &PackageHeader,
) -> io::Result<()>
    requires { AreThere declared.now.types.now declared.now.consts.now declared.now.blocks.now }
{
    match header.kind {
        HeaderKind::Constants { names, .. } => {
            write_values(alloc, out, path, place, declared, home, names)
        }
        HeaderKind::Variables(spec) => {
            write_values(alloc, out, path, place, declared, home, &spec.names)
        }
        HeaderKind::Type(spec) => {
            let words = type_line(alloc, declared, home, spec)?;
            write_line(out, path, place, &words)
        }
        HeaderKind::Function(function) => {
            let words = func_line(alloc, declared, home, function)?;
            write_line(out, path, place, &words)
        }
    }
}

/// The text of the file with a path, among files in the order of their paths.
fn text_at<'a>(files: &'a [SourceFile], path: &[u8]) -> &'a [u8] {
    match files.binary_search_by(|file| file.path.items().cmp(path)) {
        Ok(i) => files[i].bytes.items(),
        Err(_) => b"".as_slice(),
    }
}

/// Writes the declarations of a file with a number, whose headers begin with the one of the number `next`; answers
/// where they end.
fn write_file<W: Write>(
    alloc: Global,
    out: &mut W,
    text: &[u8],
    path: &[u8],
    number: usize,
    next: usize,
    home: &Home,
    declared: &Declarations,
) -> io::Result<usize>
    requires { AreThere declared.now.types.now declared.now.consts.now declared.now.blocks.now }
{
    let mut cursor = Cursor::new(text);
    for i in next..declared.headers.len() {
        let header = &declared.headers[i];
        if header.file != number {
            return Ok(i);
        }
        let refused = declared.marks.get(i) == Some(&true);
        if !refused {
            let place = cursor.advance(header.at.start);
            write_header(alloc, out, path, place, declared, home, header)?;
        }
    }
    Ok(declared.headers.len())
}

/// How far the writing has come: the number of the next file among all, and that of the next header.
#[derive(Clone, Copy)]
struct Progress {
    file: usize,
    header: usize,
}

/// Writes the declarations of the files of a package.
fn write_files<W: Write>(
    alloc: Global,
    out: &mut W,
    files: &[SourceFile],
    trees: &[SourceTree],
    home: &Home,
    declared: &Declarations,
    from: Progress,
) -> io::Result<Progress>
    requires { AreThere declared.now.types.now declared.now.consts.now declared.now.blocks.now }
{
    let Progress {
        mut file,
        mut header,
    } = from;
    for tree in trees {
        let path = tree.path.items();
        let text = text_at(files, path);
        header = write_file(alloc, out, text, path, file, header, home, declared)?;
        file = file.saturating_add(1);
    }
    Ok(Progress { file, header })
}

/// Writes the package with a number.
fn write_package<W: Write>(
    alloc: Global,
    out: &mut W,
    files: &[SourceFile],
    package: &Package,
    number: u32,
    declared: &Declarations,
    from: Progress,
) -> io::Result<Progress>
    requires { AreThere declared.now.types.now declared.now.consts.now declared.now.blocks.now }
{
    out.write_all(b"package ")?;
    out.write_all(package.path.items())?;
    out.write_all(b"\n")?;
    let home = Home {
        number,
        paths: declared.paths,
    };
    write_files(
        alloc,
        out,
        files,
        package.files.items(),
        &home,
        declared,
        from,
    )
}

/// Writes `PATH:LINE:COL: refused` for a place that is refused.
pub(crate) fn write_refused<W: Write>(
    out: &mut W,
    files: &[SourceFile],
    packages: &[Package],
    refused: RefusedPlace,
) -> io::Result<()> {
    let path = path_of(packages, refused);
    let place = Cursor::new(text_at(files, path)).advance(refused.at.start);
    write_line(out, path, place, b"refused")
}

/// Writes package by package, in the order of their imports, `package PATH` and a line for each name that is declared
/// and known.
pub(crate) fn write_declarations<W: Write>(
    alloc: Global,
    out: &mut W,
    files: &[SourceFile],
    packages: &[Package],
    order: &[u32],
    declared: &Declarations,
) -> io::Result<()>
    requires { AreThere declared.now.types.now declared.now.consts.now declared.now.blocks.now }
{
    let mut from = Progress { file: 0, header: 0 };
    for number in order {
        let Some(package) = packages.get(*number as usize) else {
            continue;
        };
        from = write_package(alloc, out, files, package, *number, declared, from)?;
    }
    Ok(())
}
