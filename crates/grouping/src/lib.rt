// Which process a test's lanes stand in: by a trait, for every way of grouping.
#![tactic(auto)]

ghost use Rattle.std.specs.Prelude.{◌≡◌, ℕ, ◌≤◌, true, List, is_some, Some, None, Option, MatchResult};
ghost use Rattle.refusal.specs.declared.Refusal.TheVariants.{NoPlace};
ghost use Rattle.trace.specs.declared.Label.{Label as LabelOf};
ghost use Rattle.trace.specs.declared.NamePattern.{NamePattern as PatternOf};
ghost use Rattle.grouping.specs.Asked.{asked, learnt, InRange};

use refusal::Refusal;
use trace::{Label, NamePattern};

pub mod by_binary;
pub mod by_slot;

// A grouping is asked with the number of a binary in the name book and with its id text: no struct of the two, which
// would borrow the id, and which clauses could name only as it is at the entry or at the exit.
pub trait Grouping {
    // the process of each binary that has one yet
    ghost process: { Self → ℕ → Option ℕ };

    // the process that a binary without one would get, by its id text
    ghost offer: { Self → List ℕ → Option ℕ };

    // what a test is called, by its binary's number and id and by its own number
    ghost label: { Self → ℕ → List ℕ → ℕ → LabelOf };

    // how a binary's process is named
    ghost display: { Self → ℕ → List ℕ → PatternOf };

    ghost ranged: { (g : Self) (b p : ℕ) → process g b ≡ Some p → InRange p };

    ghost offered: { (g : Self) (id : List ℕ) (p : ℕ) → offer g id ≡ Some p → InRange p };

    // The binary's process, or else what it would get.
    fn process_for(&self, binary: u32, id: &[u8]) -> Option<u32>
        ensures { result ≡ asked (process self.now) (offer self.now) binary id.now };

    // The binary's process, which it has from now on.
    fn learn(&mut self, binary: u32, id: &[u8]) -> Result<u32, Refusal>
        ensures answer { MatchResult result (λ p. asked (process self.old) (offer self.old) binary id.now ≡ Some p) (λ e. (asked (process self.old) (offer self.old) binary id.now ≡ None) × (e ≡ NoPlace) × (self.new ≡ self.old)) }
        ensures after { MatchResult result (λ p. ((c : ℕ) → process self.new c ≡ learnt (process self.old) binary p c)) (λ e. ((c : ℕ) → process self.new c ≡ process self.old c)) }
        ensures known { is_some (process self.old binary) ≡ true → self.new ≡ self.old }
        ensures labels { (b : ℕ) (i : List ℕ) (t : ℕ) → label self.new b i t ≡ label self.old b i t }
        ensures displays { (b : ℕ) (i : List ℕ) → display self.new b i ≡ display self.old b i };

    fn label_for(&self, binary: u32, id: &[u8], test: u32) -> Label
        ensures { result ≡ label self.now binary id.now test };

    fn display_for(&self, binary: u32, id: &[u8]) -> NamePattern
        ensures { result ≡ display self.now binary id.now };
}
