//! The counts of the open brackets.

ghost use Rattle.std.specs.Prelude.{◌≡◌, ℕ, ◌≤◌, List, [], ◌∷◌, sum};
ghost use Rattle.go_tree.specs.GoWords.Codes.{spelled};
ghost use Rattle.go_read.specs.SpellsWeight.{counts_after};
ghost use Rattle.go_nesting.specs.Nesting.{after};
ghost use Rattle.go_nesting.specs.Frames.{counts_of, IsSound};

use go_tree::go_words::Terminal;

/// The most that a limit of weights may be.
pub const MAX_LIMIT: u32 = 400;

/// One more than `MAX_LIMIT`: so many counts are there at most where their sum is at most `MAX_LIMIT`.
const MOST_COUNTS: usize = 401;

/// What a token may do to the counts.
#[derive(Clone, Copy, Debug, PartialEq, Eq)]
pub(crate) enum Nesting {
    Opens,
    Closes,
    Separates,
    Adds,
}

/// The counts of the open brackets, the one of the innermost bracket at `top`, and their sum.
#[derive(Drop)]
pub(crate) struct Counts {
    counts: [u32; MOST_COUNTS],
    top: usize,
    total: u32,
}

/// What a token does to the counts.
pub(crate) fn nesting_of(terminal: Terminal) -> Nesting
    ensures { (w counts : List ℕ) → counts_after (spelled terminal w) counts ≡ after result counts }
{
    match terminal {
        Terminal::Paren | Terminal::Bracket | Terminal::Brace => Nesting::Opens,
        Terminal::EndParen | Terminal::EndBracket | Terminal::EndBrace => Nesting::Closes,
        Terminal::Comma | Terminal::Semicolon => Nesting::Separates,
        _ => Nesting::Adds,
    }
}

#[tactic(auto, using(crate::proofs::FrameLemmas::top_small, crate::proofs::FrameLemmas::count_small, crate::proofs::FrameLemmas::total_small))]
impl Counts {
    /// Outside of all brackets, before the first token.
    pub(crate) fn new() -> Self
        ensures sound { IsSound result }
        ensures fresh { counts_of result ≡ 0 ∷ [] }
    {
        Counts {
            counts: [0; MOST_COUNTS],
            top: 0,
            total: 0,
        }
    }

    /// The sum of the counts after a token.
    pub(crate) fn weight_after(&self, nesting: Nesting) -> u32
        requires { IsSound self.now }
        ensures { result ≡ sum (after nesting (counts_of self.now)) }
    {
        match nesting {
            Nesting::Opens | Nesting::Adds => self.total + 1,
            Nesting::Separates => self.total - self.counts[self.top],
            Nesting::Closes if self.top > 0 => self.total - self.counts[self.top],
            Nesting::Closes => self.total,
        }
    }

    /// Takes note of a token.
    pub(crate) fn take(&mut self, nesting: Nesting)
        requires sound { IsSound self.old }
        requires small { sum (after nesting (counts_of self.old)) ≤ MAX_LIMIT }
        ensures sound { IsSound self.new }
        ensures after { counts_of self.new ≡ after nesting (counts_of self.old) }
    {
        self.total = self.weight_after(nesting);
        match nesting {
            Nesting::Opens => {
                self.counts[self.top] += 1;
                self.top += 1;
                self.counts[self.top] = 0;
            }
            Nesting::Closes if self.top > 0 => self.top -= 1,
            Nesting::Closes => {}
            Nesting::Separates => self.counts[self.top] = 0,
            Nesting::Adds => self.counts[self.top] += 1,
        }
    }
}
