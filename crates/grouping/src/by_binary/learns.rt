ghost use Rattle.std.specs.Prelude.{◌≡◌, ℕ, ◌+◌, min, [], length, Some, None};
ghost use Rattle.table.specs.Held.{listed, room};
ghost use Rattle.table.proofs.Rooms.{room_most};
ghost use Rattle.trace.specs.declared.Label.TheVariants.{Text};
ghost use Rattle.trace.specs.declared.NamePattern.TheVariants.{BookText};
ghost use Rattle.grouping.specs.Binaries.{process_in, offer_in, offer_ranged};

use super::ByBinary;
use crate::Grouping;
use refusal::Refusal;
use rows::KnownBinary;
use table::Table;
use trace::{Label, NamePattern};

impl<'a> ByBinary<'a> {
    // No binary has a process yet; as many can get one as there are rows.
    pub fn over(rows: &'a mut [KnownBinary]) -> ByBinary<'a>
        ensures { (listed result.known ≡ []) × (room result.known ≡ min (length rows.old) 4096) }
    {
        ByBinary {
            known: Table::over(rows),
        }
    }

    // The process of a binary that has one.
    fn process_of(&self, binary: u32) -> Option<u32>
        ensures { result ≡ process_in (listed self.now.known) binary }
    {
        self.known.get(binary).map(|row| row.process)
    }

    // The process that a new binary gets, while a row is free.
    fn next(&self) -> u32
        ensures { result ≡ 2 + length (listed self.now.known) }
    {
        FIRST + self.known.count() as u32
    }

    fn offer(&self) -> Option<u32>
        ensures { result ≡ offer_in (length (listed self.now.known)) (room self.now.known) }
    {
        (self.known.free() > 0).then_some(self.next())
    }
}

// The lowest process of tests: 0 is the run's, 1 that of setup scripts.
const FIRST: u32 = 2;

impl<'a> Grouping for ByBinary<'a> {
    ghost process = { λ g b. process_in (listed g.known) b };

    ghost offer = { λ g id. offer_in (length (listed g.known)) (room g.known) };

    ghost label = { λ g b id t. Text t };

    ghost display = { λ g b id. BookText b };

    ghost ranged = { λ g b p e. g.ranged b p e };

    ghost offered = { λ g id p e. offer_ranged (length (listed g.known)) (room g.known) p (room_most g.known) e };

    fn process_for(&self, binary: u32, id: &[u8]) -> Option<u32> {
        self.process_of(binary).or(self.offer())
    }

    fn learn(&mut self, binary: u32, id: &[u8]) -> Result<u32, Refusal> {
        if let Some(process) = self.process_of(binary) {
            return Ok(process);
        }
        let process = self.next();
        self.known.insert(KnownBinary { binary, process })?;
        Ok(process)
    }

    fn label_for(&self, binary: u32, id: &[u8], test: u32) -> Label {
        Label::Text(test)
    }

    fn display_for(&self, binary: u32, id: &[u8]) -> NamePattern {
        NamePattern::BookText(binary)
    }
}
