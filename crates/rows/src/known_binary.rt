ghost use Rattle.std.specs.Prelude.{nat_eq};
ghost use Rattle.std.specs.Cmp.{nat_eq_equiv};
ghost use Rattle.rows.specs.Keys.{binary_key, unranked};
ghost use Rattle.rows.specs.Alike.{turned, chained};

use table::Row;

// A binary, and the process that shows it: by arrival.
#[derive(Clone, Copy, Debug, PartialEq, Eq)]
pub struct KnownBinary {
    pub binary: u32,
    pub process: u32,
}

impl Row for KnownBinary {
    type Key = u32;

    ghost key_of = { binary_key };

    ghost same = { nat_eq };

    ghost rank_of = { unranked };

    ghost reflexive = { nat_eq_equiv.refl };

    ghost symmetric = { turned nat_eq_equiv };

    ghost transitive = { chained nat_eq_equiv };

    fn key(&self) -> u32 {
        self.binary
    }

    fn has_key(&self, key: &u32) -> bool {
        *key == self.key()
    }

    fn rank(&self) -> u32 {
        0
    }
}
