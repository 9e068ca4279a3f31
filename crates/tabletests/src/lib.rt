// Tables run at their edges: no place, one, exactly full, one more, and more than a table holds.
#![tactic(auto)]

#[cfg(test)]
mod tests {
    use refusal::Refusal;
    use rows::{
        KnownBinary, NamedLane, NamedProcess, RunningScript, RunningTest, TestKey, WaitingTest,
    };
    use table::Table;

    const NO_SCRIPT: RunningScript = RunningScript { index: 0, id: 0 };

    const NO_KEY: TestKey = TestKey { binary: 0, test: 0 };

    const NO_TEST: RunningTest = RunningTest {
        key: NO_KEY,
        slot: 0,
    };

    const NO_BINARY: KnownBinary = KnownBinary {
        binary: 0,
        process: 0,
    };

    const NO_WAIT: WaitingTest = WaitingTest {
        key: NO_KEY,
        arrow: 0,
    };

    fn script(index: u32, id: u32) -> RunningScript {
        RunningScript { index, id }
    }

    fn running(test: u32, slot: u32) -> RunningTest {
        RunningTest {
            key: TestKey { binary: 7, test },
            slot,
        }
    }

    fn binary(binary: u32) -> KnownBinary {
        KnownBinary { binary, process: 2 }
    }

    fn fill(binaries: &mut Table<KnownBinary>, count: u32) {
        for i in 0..count {
            let _ = binaries.insert(binary(i));
        }
    }

    #[test]
    fn no_place(rt: HostRuntime) {
        let mut memory: [RunningScript; 0] = [];
        let mut scripts = Table::over(&mut memory);
        assert_eq!(rt; scripts.insert(script(3, 1)), Err(Refusal::NoPlace));
        assert_eq!(rt; scripts.remove(3), None);
        assert_eq!(rt; scripts.get(3), None);
        assert_eq!(rt; scripts.at(0), None);
        assert!(rt; scripts.needs_place(3));
        assert_eq!(rt; (scripts.count(), scripts.free()), (0, 0));
    }

    #[test]
    fn one_place(rt: HostRuntime) {
        let mut memory = [NO_SCRIPT; 1];
        let mut scripts = Table::over(&mut memory);
        assert_eq!(rt; scripts.get(0), None);
        assert_eq!(rt; (scripts.count(), scripts.free()), (0, 1));
        assert_eq!(rt; scripts.insert(script(3, 1)), Ok(()));
        assert_eq!(rt; scripts.insert(script(4, 2)), Err(Refusal::NoPlace));
        assert_eq!(rt; scripts.at(0).map(|row| row.id), Some(1));
        assert_eq!(rt; scripts.at(1), None);
        assert!(rt; !scripts.needs_place(3));
        assert!(rt; scripts.needs_place(4));
        assert_eq!(rt; scripts.free(), 0);
    }

    #[test]
    fn full_then_one_more(rt: HostRuntime) {
        let mut memory = [NO_SCRIPT; 3];
        let mut scripts = Table::over(&mut memory);
        assert_eq!(rt; scripts.insert(script(5, 50)), Ok(()));
        assert_eq!(rt; scripts.insert(script(1, 10)), Ok(()));
        assert_eq!(rt; scripts.insert(script(3, 30)), Ok(()));
        assert_eq!(rt; scripts.insert(script(2, 20)), Err(Refusal::NoPlace));
        assert_eq!(rt; scripts.at(0).map(|row| row.id), Some(10));
        assert_eq!(rt; scripts.at(1).map(|row| row.id), Some(30));
        assert_eq!(rt; scripts.at(2).map(|row| row.id), Some(50));
        assert_eq!(rt; scripts.count(), 3);
    }

    #[test]
    fn known_key_at_a_full_table(rt: HostRuntime) {
        let mut memory = [NO_TEST; 2];
        let mut tests = Table::over(&mut memory);
        assert_eq!(rt; tests.insert(running(1, 4)), Ok(()));
        assert_eq!(rt; tests.insert(running(2, 6)), Ok(()));
        assert_eq!(rt; tests.insert(running(1, 9)), Ok(()));
        assert_eq!(rt; tests.at(0).map(|row| row.key.test), Some(2));
        assert_eq!(rt; tests.at(1).map(|row| row.key.test), Some(1));
        assert_eq!(rt; tests.count(), 2);
        let key = TestKey { binary: 7, test: 1 };
        assert_eq!(rt; tests.get(key).map(|row| row.slot), Some(9));
    }

    #[test]
    fn equal_ranks_stand_as_they_arrived(rt: HostRuntime) {
        let mut memory = [NO_TEST; 4];
        let mut tests = Table::over(&mut memory);
        assert_eq!(rt; tests.insert(running(1, 4)), Ok(()));
        assert_eq!(rt; tests.insert(running(2, 2)), Ok(()));
        assert_eq!(rt; tests.insert(running(3, 4)), Ok(()));
        assert_eq!(rt; tests.insert(running(4, 2)), Ok(()));
        assert_eq!(rt; tests.at(0).map(|row| row.key.test), Some(2));
        assert_eq!(rt; tests.at(1).map(|row| row.key.test), Some(4));
        assert_eq!(rt; tests.at(2).map(|row| row.key.test), Some(1));
        assert_eq!(rt; tests.at(3).map(|row| row.key.test), Some(3));
    }

    #[test]
    fn a_known_key_arrives_anew(rt: HostRuntime) {
        let mut memory = [NO_TEST; 3];
        let mut tests = Table::over(&mut memory);
        assert_eq!(rt; tests.insert(running(1, 4)), Ok(()));
        assert_eq!(rt; tests.insert(running(2, 4)), Ok(()));
        assert_eq!(rt; tests.insert(running(1, 4)), Ok(()));
        assert_eq!(rt; tests.at(0).map(|row| row.key.test), Some(2));
        assert_eq!(rt; tests.at(1).map(|row| row.key.test), Some(1));
        assert_eq!(rt; tests.count(), 2);
    }

    #[test]
    fn freed_places_are_used_again(rt: HostRuntime) {
        let mut memory = [NO_SCRIPT; 2];
        let mut scripts = Table::over(&mut memory);
        assert_eq!(rt; scripts.insert(script(1, 10)), Ok(()));
        assert_eq!(rt; scripts.insert(script(2, 20)), Ok(()));
        assert!(rt; scripts.remove(1).is_some());
        assert_eq!(rt; scripts.remove(1), None);
        assert_eq!(rt; scripts.insert(script(3, 30)), Ok(()));
        assert_eq!(rt; scripts.insert(script(1, 11)), Err(Refusal::NoPlace));
        assert_eq!(rt; scripts.at(0).map(|row| row.id), Some(20));
        assert_eq!(rt; scripts.at(1).map(|row| row.id), Some(30));
    }

    #[test]
    fn four_thousand_and_ninety_six_rows(rt: HostRuntime) {
        let mut memory = [NO_BINARY; 4096];
        let mut binaries = Table::over(&mut memory);
        fill(&mut binaries, 4096);
        assert_eq!(rt; (binaries.count(), binaries.free()), (4096, 0));
        assert!(rt; !binaries.needs_place(0));
        assert!(rt; !binaries.needs_place(4095));
        assert_eq!(rt; binaries.insert(binary(4096)), Err(Refusal::NoPlace));
        assert_eq!(rt; binaries.insert(binary(17)), Ok(()));
        assert_eq!(rt; binaries.at(4095).map(|row| row.binary), Some(17));
    }

    #[test]
    fn more_places_than_a_table_uses(rt: HostRuntime) {
        let mut memory = [NO_BINARY; 5000];
        let mut binaries = Table::over(&mut memory);
        fill(&mut binaries, 5000);
        assert_eq!(rt; (binaries.count(), binaries.free()), (4096, 0));
        assert_eq!(rt; binaries.insert(binary(4096)), Err(Refusal::NoPlace));
        assert!(rt; binaries.remove(0).is_some());
        assert_eq!(rt; binaries.free(), 1);
        assert_eq!(rt; binaries.insert(binary(4096)), Ok(()));
        assert_eq!(rt; binaries.insert(binary(4097)), Err(Refusal::NoPlace));
    }

    #[test]
    fn waiting_tests(rt: HostRuntime) {
        let mut memory = [NO_WAIT; 2];
        let mut waiting = Table::over(&mut memory);
        let row = WaitingTest {
            key: TestKey { binary: 1, test: 2 },
            arrow: 9,
        };
        assert_eq!(rt; waiting.insert(row), Ok(()));
        assert_eq!(rt; waiting.get(TestKey { binary: 2, test: 1 }), None);
        assert!(rt; waiting.get(TestKey { binary: 1, test: 2 }).is_some());
    }

    #[test]
    fn names(rt: HostRuntime) {
        let mut memory = [NamedProcess { process: 0 }; 1];
        let mut processes = Table::over(&mut memory);
        assert!(rt; processes.needs_place(0));
        assert_eq!(rt; processes.insert(NamedProcess { process: 0 }), Ok(()));
        assert!(rt; !processes.needs_place(0));
        let mut memory = [NamedLane {
            process: 0,
            lane: 0,
        }; 2];
        let mut lanes = Table::over(&mut memory);
        let lane = NamedLane {
            process: 2,
            lane: 1,
        };
        assert_eq!(rt; lanes.insert(lane), Ok(()));
        assert!(rt; lanes.needs_place((1, 2)));
        assert!(rt; !lanes.needs_place((2, 1)));
    }
}
