ghost use Rattle.rows.specs.Keys.{same_test, running_key, running_rank};
ghost use Rattle.rows.specs.Alike.{test_equiv, turned, chained};

use super::TestKey;
use table::Row;

// A test that runs, in its slot: by slot.
#[derive(Clone, Copy, Debug, PartialEq, Eq)]
pub struct RunningTest {
    pub key: TestKey,
    pub slot: u32,
}

impl Row for RunningTest {
    type Key = TestKey;

    ghost key_of = { running_key };

    ghost same = { same_test };

    ghost rank_of = { running_rank };

    ghost reflexive = { test_equiv.refl };

    ghost symmetric = { turned test_equiv };

    ghost transitive = { chained test_equiv };

    fn key(&self) -> TestKey {
        self.key
    }

    fn has_key(&self, key: &TestKey) -> bool {
        *key == self.key()
    }

    fn rank(&self) -> u32 {
        self.slot
    }
}
