ghost use Rattle.std.specs.Prelude.{nat_eq};
ghost use Rattle.std.specs.Cmp.{nat_eq_equiv};
ghost use Rattle.rows.specs.Keys.{script_key};
ghost use Rattle.rows.specs.Alike.{turned, chained};

use table::Row;

// A setup script that runs, with the book number of its id: by index.
#[derive(Clone, Copy, Debug, PartialEq, Eq)]
pub struct RunningScript {
    pub index: u32,
    pub id: u32,
}

impl Row for RunningScript {
    type Key = u32;

    ghost key_of = { script_key };

    ghost same = { nat_eq };

    ghost rank_of = { script_key };

    ghost reflexive = { nat_eq_equiv.refl };

    ghost symmetric = { turned nat_eq_equiv };

    ghost transitive = { chained nat_eq_equiv };

    fn key(&self) -> u32 {
        self.index
    }

    fn has_key(&self, key: &u32) -> bool {
        *key == self.key()
    }

    fn rank(&self) -> u32 {
        self.key()
    }
}
