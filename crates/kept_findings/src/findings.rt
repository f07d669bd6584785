//! The findings of a declaration.

ghost use Rattle.std.specs.Prelude.{◌≡◌, ◌≤◌, [], ◌∷◌, ◌++◌, true, length, take, drop, option_copied, OnErr, OnOk, Some};
ghost use Rattle.go_tree.specs.GoTypes.Answers.{given};
ghost use Rattle.expression_spans.specs.Order.{ascends};
ghost use Rattle.kept_findings.specs.Kept.{spans_kept, kept_at, first_kept, constant_kept};

use go_tree::const_eval::Const;
use go_tree::{NoMemory, Span};
use std::alloc::Global;
use std::marker::Model;
use type_table::TypeId;

/// What is found of an expression: its place, the number of its type, and its constant, if it is one.
#[derive(Drop)]
pub struct Finding {
    /// Where the expression stands, counted from the start of its declaration.
    pub at: Span,
    /// Its type in its place.
    pub of: TypeId,
    /// Its constant.
    pub constant: Option<Box<Const>>,
}

/// The findings of a declaration in the order in which their expressions end, parts before their whole.
#[derive(Drop)]
pub struct Findings {
    entries: Vec<Finding>,
}

impl Model for Findings {
    ghost use Rattle.std.specs.Prelude.{List};
    ghost use Rattle.kept_findings.specs.declared.findings.Finding as finding;

    ghost Value = { List finding.Finding };

    ghost view = { λ a. a.entries.items };
}

impl Findings {
    /// None.
    pub fn new(alloc: Global) -> Self
        ensures { result ≡ [] }
    {
        Findings {
            entries: Vec::new(alloc),
        }
    }

    /// How many.
    pub fn len(&self) -> usize
        ensures { result ≡ length self.now }
    {
        self.entries.len()
    }

    /// One more, behind the others.
    pub fn push(&mut self, finding: Finding) -> Result<(), NoMemory>
        ensures added { OnOk result (self.new ≡ self.old ++ finding ∷ []) }
        ensures same { OnErr result (self.new ≡ self.old) }
    {
        self.entries.push(finding)?;
        Ok(())
    }

    /// The first ones alone, as before a part that was refused.
    pub fn truncate(&mut self, len: usize)
        ensures { self.new ≡ take len self.old }
    {
        self.entries.truncate(len);
    }

    /// What is found of the expression at a place, by a binary search; none where nothing is found there.
    pub fn find(&self, at: Span) -> Option<&Finding>
        requires { ascends (spans_kept self.now) ≡ true }
        ensures { option_copied result ≡ kept_at at self.now }
    {
        search(&self.entries, at)
    }

    /// The type of the expression at a place; none where no typed expression stands there.
    pub fn type_at(&self, at: Span) -> Option<TypeId>
        requires { ascends (spans_kept self.now) ≡ true }
        ensures { result ≡ given (kept_at at self.now) (λ f. Some f.of) }
    {
        match self.find(at) {
            Some(finding) => Some(finding.of),
            None => None,
        }
    }

    /// Its constant; none where no constant expression stands there.
    pub fn const_at(&self, at: Span) -> Option<&Const>
        requires { ascends (spans_kept self.now) ≡ true }
        ensures { option_copied result ≡ given (kept_at at self.now) constant_kept }
    {
        match self.find(at) {
            Some(finding) => match &finding.constant {
                Some(constant) => Some(&**constant),
                None => None,
            },
            None => None,
        }
    }
}

/// The finding at a place, by a binary search.
fn search(entries: &[Finding], at: Span) -> Option<&Finding>
    requires { ascends (spans_kept entries.now) ≡ true }
    ensures { option_copied result ≡ kept_at at entries.now }
{
    let first = first_from(entries, at);
    standing(&entries[first..], at)
}

/// How many findings stand before those at the place and behind it.
fn first_from(entries: &[Finding], at: Span) -> usize
    requires { ascends (spans_kept entries.now) ≡ true }
    ensures within { result ≤ length entries.now }
    ensures found { first_kept at (drop result entries.now) ≡ kept_at at entries.now }
{
    entries.partition_point(|f| f.at.end < at.end || (f.at.end == at.end && at.start < f.at.start))
}

/// The first finding, where it stands at the place.
fn standing(entries: &[Finding], at: Span) -> Option<&Finding>
    ensures { option_copied result ≡ first_kept at entries.now }
{
    match entries {
        [first, ..] => {
            if at.start == first.at.start && at.end == first.at.end {
                Some(first)
            } else {
                None
            }
        }
        [] => None,
    }
}
