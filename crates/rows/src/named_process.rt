ghost use Rattle.std.specs.Prelude.{nat_eq};
ghost use Rattle.std.specs.Cmp.{nat_eq_equiv};
ghost use Rattle.rows.specs.Keys.{process_key, unranked};
ghost use Rattle.rows.specs.Alike.{turned, chained};

use table::Row;

// A process that has its name: by arrival.
#[derive(Clone, Copy, Debug, PartialEq, Eq)]
pub struct NamedProcess {
    pub process: u32,
}

impl Row for NamedProcess {
    type Key = u32;

    ghost key_of = { process_key };

    ghost same = { nat_eq };

    ghost rank_of = { unranked };

    ghost reflexive = { nat_eq_equiv.refl };

    ghost symmetric = { turned nat_eq_equiv };

    ghost transitive = { chained nat_eq_equiv };

    fn key(&self) -> u32 {
        self.process
    }

    fn has_key(&self, key: &u32) -> bool {
        *key == self.key()
    }

    fn rank(&self) -> u32 {
        0
    }
}
