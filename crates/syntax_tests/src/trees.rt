//! Copies and depth of each construct. A node is what has a span; the depths are counted by hand.

use crate::files::read;
use go_syntax::{Decl, Expr, FileTree, NoMemory, copy_expr, copy_stmt, depth};
use std::alloc::Global;
use std::process::Abort;
use std::test::Fail;

fn joined(alloc: Global, front: &[u8], text: &[u8], back: &[u8]) -> Result<Vec<u8>, NoMemory> {
    let mut all = front.to_vec(alloc)?;
    all.extend_from_slice(text)?;
    all.extend_from_slice(back)?;
    Ok(all)
}

/// The value, and its copy, are so deep.
fn value_is_deep<R: Abort + AllocGlobal>(rt: &R, e: &Expr, want: u32) -> Result<(), Fail> {
    let copy = Box::new(rt.alloc(), copy_expr(rt.alloc(), e)?)?;
    assert_eq!(rt; depth(e), want);
    assert_eq!(rt; depth(&copy), want);
    Ok(())
}

fn only_value<R: Abort + AllocGlobal>(rt: &R, file: &FileTree, want: u32) -> Result<(), Fail> {
    let [Decl::Var(decl)] = file.decls.items() else {
        return Err(Fail::new("other than one declaration of variables"));
    };
    let [spec] = decl.specs.items() else {
        return Err(Fail::new("other than one spec"));
    };
    let [e] = spec.values.items() else {
        return Err(Fail::new("other than one value"));
    };
    value_is_deep(rt, e, want)
}

/// The value of a variable, and its copy, are so deep; each statement of a literal that is called there is copied.
fn is_deep<R: Abort + AllocGlobal>(rt: &R, text: &[u8], want: u32) -> Result<(), Fail> {
    let source = joined(rt.alloc(), b"package p\n\nvar v = ", text, b"\n")?;
    let file = read(rt.alloc(), &source)?;
    only_value(rt, &file, want)
}

/// The literal of a function with this statement, called, is so much deeper than the statement: call, literal and
/// block.
const AROUND: u32 = 3;

fn holds<R: Abort + AllocGlobal>(rt: &R, stmt: &[u8], want: u32) -> Result<(), Fail> {
    let text = joined(rt.alloc(), b"func() { ", stmt, b" }()")?;
    is_deep(rt, &text, AROUND.saturating_add(want))
}

#[test]
fn types_and_expressions(rt: HostRuntime) -> Result<(), Fail> {
    let texts: [(&[u8], u32); 13] = [
        (b"x", 1),
        (b"1", 1),
        (b"'a'", 1),
        (b"\"a\"", 1),
        (b"p.T{k: {1}}", 5),
        (b"x.n", 2),
        (b"x.n[i]", 3),
        (b"x.n[i][1:i]", 4),
        (b"-f(x.n[i][1:i])", 6),
        (b"*x + -f(x.n[i][1:i])", 7),
        (b"*x", 2),
        (b"f(struct{ f map[p.T][]*p.T })", 9),
        (b"func(a p.T) {}()", 5),
    ];
    for (text, want) in texts {
        is_deep(&rt, text, want)?;
    }
    Ok(())
}

#[test]
fn statements(rt: HostRuntime) -> Result<(), Fail> {
    let texts: [(&[u8], u32); 18] = [
        (b"const a p.T = 1", 4),
        (b"var a p.T = 1", 4),
        (b";", 1),
        (b"x", 2),
        (b"x.n++", 3),
        (b"x = f()", 3),
        (b"i := 0", 2),
        (b"return f()", 3),
        (b"break L", 2),
        (b"{ x }", 3),
        (b"if i := 0; x { { x } } else { continue }", 6),
        (b"for i := 0; x; x.n++ { break L }", 4),
        (b"for range x { continue }", 3),
        (b"for i := range x { continue }", 3),
        (b"for f().n = range x { continue }", 4),
        (b"switch i := 0; x { case 1: { x } }", 5),
        (b"defer f()", 3),
        (b"L: { x }", 4),
    ];
    for (text, want) in texts {
        holds(&rt, text, want)?;
    }
    Ok(())
}

fn copies_each(alloc: Global, decls: &[Decl]) -> Result<(), Fail> {
    let [Decl::Func(f)] = decls else {
        return Err(Fail::new("other than one function"));
    };
    for stmt in f.body.stmts.items() {
        drop(copy_stmt(alloc, stmt)?);
    }
    Ok(())
}

#[test]
fn copied_statements(rt: HostRuntime) -> Result<(), Fail> {
    let text = b"package p\n\nfunc f() {\n\tif i := 0; x {\n\t\treturn\n\t}\n\tx++\n}\n";
    let file = read(rt.alloc(), text)?;
    copies_each(rt.alloc(), file.decls.items())
}
