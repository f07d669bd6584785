//! Files of constants and of functions that print them.

use crate::files::read;
use printing_files::prints_only;
use std::alloc::Global;
use std::test::Fail;

fn prints(alloc: Global, text: &str) -> Result<bool, Fail> {
    let file = read(alloc, text.as_bytes())?;
    Ok(prints_only(&file))
}

#[test]
fn files_that_print_constants(rt: HostRuntime) -> Result<(), Fail> {
    let cases: &[(&str, bool)] = &[
        (
            "package p\n\nimport \"m/q\"\n\nconst A = q.B\n\nconst (\n\tC = 7\n\tD = C\n)\n\nfunc f() {\n\tprintln(A, 0)\n}\n",
            true,
        ),
        ("package p\n\nconst A = 1 + 1\n", false),
        ("package p\n\nconst A int = 1\n", false),
        ("package p\n\nconst A, B = 1, 2\n", false),
        ("package p\n\nconst _ = 1\n", false),
        ("package p\n\nvar A = 1\n", false),
        ("package p\n\nfunc f(a int) {\n}\n", false),
        ("package p\n\nfunc f() {\n\tprint(1)\n}\n", false),
        ("package p\n\nfunc f() {\n\tprintln(f())\n}\n", false),
    ];
    for (text, want) in cases {
        if prints(rt.alloc(), text)? != *want {
            return Err(Fail::new(*text));
        }
    }
    Ok(())
}
