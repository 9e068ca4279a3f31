ghost use Rattle.rows.specs.Keys.{same_test, waiting_key, unranked};
ghost use Rattle.rows.specs.Alike.{test_equiv, turned, chained};

use super::TestKey;
use table::Row;

// A test that failed and waits to run again, with the number of its arrow: by arrival.
#[derive(Clone, Copy, Debug, PartialEq, Eq)]
pub struct WaitingTest {
    pub key: TestKey,
    pub arrow: u32,
}

impl Row for WaitingTest {
    type Key = TestKey;

    ghost key_of = { waiting_key };

    ghost same = { same_test };

    ghost rank_of = { unranked };

    ghost reflexive = { test_equiv.refl };

    ghost symmetric = { turned test_equiv };

    ghost transitive = { chained test_equiv };

    fn key(&self) -> TestKey {
        self.key
    }

    fn has_key(&self, key: &TestKey) -> bool {
        *key == self.key()
    }

    fn rank(&self) -> u32 {
        0
    }
}
