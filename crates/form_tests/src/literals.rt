//! Literals of functions, called in place.

use call_forms::{Qualifiers, There, literal_form};
use go_parse::{Source, read_file};
use go_print::print_expr;
use go_tree::{
    Decl, Expr, ExprList, FileTree, FuncDecl, MAX_FILE_BYTES, Name, Rest, Span, call_expr,
    ident_expr,
};
use std::alloc::Global;
use std::test::Fail;

/// Where the forms stand.
pub(crate) const PLACE: Span = Span { start: 7, end: 9 };

pub(crate) fn source(alloc: Global, text: &str) -> Result<Box<Source>, Fail> {
    let text = text.as_bytes();
    if text.len() > MAX_FILE_BYTES as usize {
        return Err(Fail::new("a text that is too long"));
    }
    match read_file(alloc, text) {
        Ok(source) => Ok(Box::new(alloc, source)?),
        Err(_) => Err(Fail::new("a text without a tree")),
    }
}

pub(crate) fn only_function(file: &FileTree) -> Result<&FuncDecl, Fail> {
    match file.decls.items() {
        [Decl::Func(function)] => Ok(function),
        _ => Err(Fail::new("other than one function")),
    }
}

pub(crate) fn name_of(alloc: Global, word: &str) -> Result<Name, Fail> {
    Ok(Name::of(word.as_bytes().to_vec(alloc)?))
}

pub(crate) fn name_expr(alloc: Global, word: &str) -> Result<Box<Expr>, Fail> {
    Ok(Box::new(alloc, ident_expr(PLACE, name_of(alloc, word)?))?)
}

pub(crate) fn one_argument(alloc: Global, e: Box<Expr>) -> Result<ExprList, Fail> {
    let mut list = Vec::new(alloc);
    list.push(Box::into_inner(e))?;
    Ok(ExprList::of(list))
}

/// The literal of the function in the text, called with the arguments, is this, behind one tab.
fn becomes(
    alloc: Global,
    text: &str,
    qualifiers: &Qualifiers,
    args: ExprList,
    want: &str,
) -> Result<bool, Fail> {
    let source = source(alloc, text)?;
    let function = only_function(&source.tree)?;
    let there = There {
        qualifiers,
        span: PLACE,
    };
    let form = Box::new(alloc, literal_form(alloc, &there, function, args)?)?;
    let printed = print_expr(alloc, &form, b"\t", 1, false)?;
    Ok(printed.items() == want.as_bytes())
}

fn nothing_told(alloc: Global) -> Qualifiers {
    Qualifiers::new(alloc, Vec::new(alloc))
}

// From the description of how calls are inlined: an argument that acts is bound once, and a deferred call becomes the
// deferred literal.
#[test]
fn parameters_stay_bound(rt: HostRuntime) -> Result<(), Fail> {
    let alloc = rt.alloc();
    let next = call_expr(
        PLACE,
        name_expr(alloc, "next")?,
        ExprList::of(Vec::new(alloc)),
        Rest::Plain,
    );
    let next = Box::new(alloc, next)?;
    assert!(rt;
        becomes(
            alloc,
            "package p\n\nfunc Twice(x int) int { return x + x }\n",
            &nothing_told(alloc),
            one_argument(alloc, next)?,
            "func(x int) int {\n\t\treturn x + x\n\t}(next())"
        )?
    );
    assert!(rt;
        becomes(
            alloc,
            "package p\n\nfunc Close(n int) { println(\"closed\", n) }\n",
            &nothing_told(alloc),
            one_argument(alloc, name_expr(alloc, "v")?)?,
            "func(n int) {\n\t\tprintln(\"closed\", n)\n\t}(v)"
        )?
    );
    Ok(())
}

// The name of an import at the call stands in the place of the one that the function's file has for it; a parameter
// without a name is named `_`.
#[test]
fn packages_have_their_names_there(rt: HostRuntime) -> Result<(), Fail> {
    let alloc = rt.alloc();
    let mut packages = Vec::new(alloc);
    packages.push(name_of(alloc, "pow0")?)?;
    let mut told = Qualifiers::new(alloc, packages);
    told.put(Span { start: 74, end: 81 }, 0)?;
    assert!(rt;
        becomes(
            alloc,
            "package old\n\nimport \"example.com/m/pow\"\n\nfunc Square(x int) int {\n\treturn pow.Pow(x, 2)\n}\n",
            &told,
            one_argument(alloc, name_expr(alloc, "pow")?)?,
            "func(x int) int {\n\t\treturn pow0.Pow(x, 2)\n\t}(pow)"
        )?
    );
    assert!(rt;
        becomes(
            alloc,
            "package p\n\nfunc Drop(int) (err error) { return }\n",
            &nothing_told(alloc),
            one_argument(alloc, name_expr(alloc, "v")?)?,
            "func(_ int) (err error) {\n\t\treturn\n\t}(v)"
        )?
    );
    Ok(())
}
