//! Spans of declarations, types and fields, counted by hand.

use crate::files::read;
use go_syntax::{
    Decl, Expr, FileTree, FuncDecl, ImportDecl, Rest, Span, Stmt, TypeExpr, copy_stmt,
};
use std::process::Abort;
use std::test::Fail;

fn span(start: u32, end: u32) -> Span {
    Span { start, end }
}

// Its lines begin at the bytes 0, 10, 11, 22, 23, 32, 43, 45, 46, 72, 73, 80 and 88.
const FILE: &[u8] =
    b"package p\n\nimport \"a\"\n\nimport (\n\tb \"c\\x64\"\n)\n\ntype A struct{ x, y int }\n\ntype (\n\tB = *A\n)\n";

fn imports_are_right<R: Abort + AllocGlobal>(rt: &R, imports: &[ImportDecl]) -> Result<(), Fail> {
    let [single, group] = imports else {
        return Err(Fail::new("other than two imports"));
    };
    assert!(rt; !single.grouped && group.grouped);
    assert_eq!(rt; group.span, span(23, 44));
    let [spec] = group.specs.items() else {
        return Err(Fail::new("other than one path"));
    };
    assert_eq!(rt; spec.span, span(33, 42));
    assert_eq!(rt; spec.path.items(), b"cd".as_slice());
    Ok(())
}

fn fields_are_right<R: Abort + AllocGlobal>(rt: &R, of: &TypeExpr) -> Result<(), Fail> {
    let TypeExpr::Struct { fields, .. } = of else {
        return Err(Fail::new("no struct"));
    };
    let [x, y] = fields.items() else {
        return Err(Fail::new("other than two fields"));
    };
    assert_eq!(rt; x.span, span(61, 69));
    assert_eq!(rt; y.span, span(64, 69));
    Ok(())
}

fn types_are_right<R: Abort + AllocGlobal>(rt: &R, decls: &[Decl]) -> Result<(), Fail> {
    let [Decl::Types(one), Decl::Types(..)] = decls else {
        return Err(Fail::new("other than two declarations of types"));
    };
    let [defined] = one.specs.items() else {
        return Err(Fail::new("other than one type"));
    };
    fields_are_right(rt, &defined.of)
}

fn file_is_right<R: Abort + AllocGlobal>(rt: &R, file: &FileTree) -> Result<(), Fail> {
    assert_eq!(rt; file.package.span, span(8, 9));
    imports_are_right(rt, file.imports.items())?;
    types_are_right(rt, file.decls.items())
}

#[test]
fn imports_and_types(rt: HostRuntime) -> Result<(), Fail> {
    let file = read(rt.alloc(), FILE)?;
    file_is_right(&rt, &file)
}

// Its lines begin at the bytes 0, 10, 11, 46 and 47.
const VARIADIC: &[u8] = b"package p\n\nfunc f(a int, xs ...T) { g(a...) }\n\nfunc g(...T) {}\n";

fn parameters_are_right<R: Abort + AllocGlobal>(
    rt: &R,
    f: &FuncDecl,
    g: &FuncDecl,
) -> Result<(), Fail> {
    let [a, xs] = f.sig.params.items() else {
        return Err(Fail::new("other than two parameters"));
    };
    assert!(rt; !a.rest && xs.rest);
    assert_eq!(rt; xs.span, span(25, 32));
    let [unnamed] = g.sig.params.items() else {
        return Err(Fail::new("other than one parameter"));
    };
    assert!(rt; unnamed.rest);
    assert_eq!(rt; unnamed.span, span(54, 58));
    Ok(())
}

fn call_is_right<R: Abort + AllocGlobal>(rt: &R, stmt: &Stmt) -> Result<(), Fail> {
    let Stmt::Eval { e, .. } = stmt else {
        return Err(Fail::new("no expression"));
    };
    let Expr::Call { span: at, rest, .. } = e else {
        return Err(Fail::new("no call"));
    };
    assert_eq!(rt; *at, span(36, 43));
    assert_eq!(rt; *rest, Rest::Whole);
    Ok(())
}

fn variadic_is_right<R: Abort + AllocGlobal>(rt: &R, decls: &[Decl]) -> Result<(), Fail> {
    let [Decl::Func(f), Decl::Func(g)] = decls else {
        return Err(Fail::new("other than two functions"));
    };
    parameters_are_right(rt, f, g)?;
    let [stmt] = f.body.stmts.items() else {
        return Err(Fail::new("other than one statement"));
    };
    let copy = Box::new(rt.alloc(), copy_stmt(rt.alloc(), stmt)?)?;
    call_is_right(rt, &copy)
}

#[test]
fn variadic_parameters_and_calls(rt: HostRuntime) -> Result<(), Fail> {
    let file = read(rt.alloc(), VARIADIC)?;
    variadic_is_right(&rt, file.decls.items())
}
