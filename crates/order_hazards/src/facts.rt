//! What is known of an argument, of its parameter, and of the operations of a body.

ghost use Rattle.std.specs.Prelude.{◌≡◌};
ghost use Rattle.order_hazards.specs.Items.{is_use, is_write, is_effect};

/// What evaluating an argument may do.
#[derive(Clone, Copy, Debug, PartialEq, Eq)]
pub enum Class {
    /// It reads only what the body can't change, and can't fail.
    Steady,
    /// It also reads what the body might change, and can't fail.
    Looks,
    /// It may do anything: call, allocate, write or panic.
    Acts,
}

/// An entry of a body's list of items, in the order of evaluation. The list ends before the first
/// part of the body that is conditional, repeated, deferred, in a literal or never reached.
#[derive(Clone, Copy, Debug, PartialEq, Eq)]
pub enum Item {
    /// A use of the parameter of this number, counted from 0.
    Param(u32),
    /// A read of what a write might change.
    Read,
    /// An operation that may panic.
    Fail,
    /// A write, an allocation, a print or a call.
    Write,
    /// The end of the list, where the body goes on.
    Stop,
}

impl Item {
    pub(crate) fn is_use(&self, i: u32) -> bool
        ensures { result ≡ is_use i self.now }
    {
        match self {
            Item::Param(j) => *j == i,
            _ => false,
        }
    }

    pub(crate) fn is_write(&self) -> bool
        ensures { result ≡ is_write self.now }
    {
        matches!(self, Item::Write)
    }

    pub(crate) fn is_effect(&self) -> bool
        ensures { result ≡ is_effect self.now }
    {
        matches!(self, Item::Read | Item::Fail | Item::Write)
    }
}

/// What is known of one parameter of a call and its argument.
#[derive(Clone, Copy, Debug, PartialEq, Eq)]
pub struct ParamRow {
    /// What evaluating the argument may do.
    pub class: Class,
    /// The argument is a constant (Go specification, "Constant expressions").
    pub constant: bool,
    /// The argument is short enough, and plain enough, to be written more than once.
    pub duplicable: bool,
    /// How often the body uses the parameter.
    pub uses: u32,
    /// The parameter stays bound whatever else holds: the body assigns it or takes its address, say.
    pub barred: bool,
    /// A use stands in a deferred literal of the body, or the call itself is deferred.
    pub deferred_use: bool,
    /// The argument holds the last use of a local variable of the function around the call.
    pub last_use: bool,
    /// The argument names a variable that is reached by other ways than its name.
    pub names_held: bool,
    /// The argument takes the address of a variable.
    pub address: bool,
}
