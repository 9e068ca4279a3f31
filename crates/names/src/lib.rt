// The name book: texts get numbers from 1 by arrival, and equal texts share one.
#![tactic(auto)]

ghost use Rattle.names.specs.Laws.{NamesStand};

mod book;

pub use book::{Entry, NameBook, Shown};

// The laws of the name book, for the crates above.
pub fn names_stand()
    ensures { NamesStand }
{}
