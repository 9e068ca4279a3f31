// By binary: a process for each binary, in the order in which they are met.

ghost use Rattle.table.specs.Held.{listed};
ghost use Rattle.grouping.specs.Binaries.{Ranged};

use rows::KnownBinary;
use table::Table;

pub mod learns;

// The binaries that have a process, at most one row of each.
#[derive(Drop)]
pub struct ByBinary<'a> {
    known: Table<'a, KnownBinary>,
    ghost ranged: { Ranged (listed known) },
}
