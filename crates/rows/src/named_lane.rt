ghost use Rattle.rows.specs.Keys.{same_lane, lane_key, unranked};
ghost use Rattle.rows.specs.Alike.{lane_equiv, turned, chained};

use table::Row;

// A lane that has its name, by its process and its number there: by arrival.
#[derive(Clone, Copy, Debug, PartialEq, Eq)]
pub struct NamedLane {
    pub process: u32,
    pub lane: u32,
}

impl Row for NamedLane {
    type Key = (u32, u32);

    ghost key_of = { lane_key };

    ghost same = { same_lane };

    ghost rank_of = { unranked };

    ghost reflexive = { lane_equiv.refl };

    ghost symmetric = { turned lane_equiv };

    ghost transitive = { chained lane_equiv };

    fn key(&self) -> (u32, u32) {
        (self.process, self.lane)
    }

    fn has_key(&self, key: &(u32, u32)) -> bool {
        *key == self.key()
    }

    fn rank(&self) -> u32 {
        0
    }
}
