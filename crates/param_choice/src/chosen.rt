//! A chosen set of parameters.

ghost use Rattle.std.specs.Prelude.{◌≡◌};
ghost use Rattle.param_choice.specs.Chosen.{has};

use std::marker::Model;

/// A set of a call's parameters.
#[derive(Drop)]
pub struct Chosen {
    // One truth value a parameter.
    kept: Vec<bool>,
}

impl Model for Chosen {
    ghost use Rattle.std.specs.Prelude.{Bool, List};

    ghost Value = { List Bool };

    ghost view = { λ c. c.kept.items };
}

impl Chosen {
    pub(crate) fn new(kept: Vec<bool>) -> Self
        ensures { result ≡ kept.items }
    {
        Chosen { kept }
    }

    /// Whether the parameter of this number, counted from 0, is chosen.
    pub fn has(&self, i: u32) -> bool
        ensures { result ≡ has self.now i }
    {
        is_kept(&self.kept, i)
    }
}

pub(crate) fn is_kept(kept: &[bool], i: u32) -> bool
    ensures { result ≡ has kept.now i }
{
    kept.get(i as usize).copied().unwrap_or(false)
}
