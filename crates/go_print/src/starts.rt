//! Whether lists have entries, and what stands before those that have.

ghost use Rattle.std.specs.Prelude.{◌≡◌, ◌++◌, OnOk};
ghost use Rattle.go_layout.specs.Layouts.{text_of};
ghost use Rattle.go_layout.specs.TreeLayout.{case_word, clauses_start, equals_before, gap_before};
ghost use Rattle.go_print.specs.Parts.{has_cases, has_exprs, has_specs, has_stmts};
ghost use Rattle.go_tree.specs.View.{cases_of, const_specs_of, exprs_of, stmts_of, var_specs_of};

use crate::parts::{write_if, write_line_if, write_text};
use go_tree::{CaseList, ConstSpecList, ExprList, NoMemory, StmtList, VarSpecList};

fn has_exprs(exprs: &ExprList) -> bool
    ensures { result ≡ has_exprs (exprs_of exprs.now) }
{
    !exprs.items().is_empty()
}

pub(crate) fn has_stmts(stmts: &StmtList) -> bool
    ensures { result ≡ has_stmts (stmts_of stmts.now) }
{
    !stmts.items().is_empty()
}

fn has_cases(cases: &CaseList) -> bool
    ensures { result ≡ has_cases (cases_of cases.now) }
{
    !cases.items().is_empty()
}

pub(crate) fn has_const_specs(specs: &ConstSpecList) -> bool
    ensures { result ≡ has_specs (const_specs_of specs.now) }
{
    !specs.items().is_empty()
}

pub(crate) fn has_var_specs(specs: &VarSpecList) -> bool
    ensures { result ≡ has_specs (var_specs_of specs.now) }
{
    !specs.items().is_empty()
}

/// A blank before the values of a `return`.
pub(crate) fn write_gap_before(out: &mut Vec<u8>, exprs: &ExprList) -> Result<(), NoMemory>
    ensures { OnOk result (out.new.items ≡ out.old.items ++ text_of (gap_before (exprs_of exprs.now))) }
{
    write_if(out, has_exprs(exprs), b" ")
}

/// `=` before the values of a spec.
pub(crate) fn write_equals_before(out: &mut Vec<u8>, exprs: &ExprList) -> Result<(), NoMemory>
    ensures { OnOk result (out.new.items ≡ out.old.items ++ text_of (equals_before (exprs_of exprs.now))) }
{
    write_if(out, has_exprs(exprs), b" = ")
}

/// The word of a clause with these values.
pub(crate) fn write_case_word(out: &mut Vec<u8>, exprs: &ExprList) -> Result<(), NoMemory>
    ensures { OnOk result (out.new.items ≡ out.old.items ++ text_of (case_word (exprs_of exprs.now))) }
{
    if has_exprs(exprs) {
        write_text(out, b"case ")
    } else {
        write_text(out, b"default")
    }
}

/// The line of the first clause of a `switch`.
pub(crate) fn write_clauses_start(
    out: &mut Vec<u8>,
    cases: &CaseList,
    indent: &[u8],
) -> Result<(), NoMemory>
    ensures { OnOk result (out.new.items ≡ out.old.items ++ text_of (clauses_start indent.now (cases_of cases.now))) }
{
    write_line_if(out, has_cases(cases), indent)
}
