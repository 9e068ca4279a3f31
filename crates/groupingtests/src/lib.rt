// The two groupings at their limits.
#![tactic(auto)]

#[cfg(test)]
mod tests {
    use grouping::Grouping;
    use grouping::by_binary::ByBinary;
    use grouping::by_slot::BySlot;
    use refusal::Refusal;
    use rows::KnownBinary;

    #[test]
    fn a_full_table(rt: HostRuntime) {
        let mut rows = [KnownBinary {
            binary: 0,
            process: 0,
        }; 2];
        let mut by = ByBinary::over(&mut rows);
        assert_eq!(rt; by.process_for(7, b"seven"), Some(2));
        assert_eq!(rt; by.learn(7, b"seven"), Ok(2));
        assert_eq!(rt; by.process_for(7, b"seven"), Some(2));
        assert_eq!(rt; by.process_for(9, b"nine"), Some(3));
        assert_eq!(rt; by.learn(9, b"nine"), Ok(3));
        assert_eq!(rt; by.process_for(8, b"eight"), None);
        assert_eq!(rt; by.learn(8, b"eight"), Err(Refusal::NoPlace));
        assert_eq!(rt; by.learn(7, b"seven"), Ok(2));
        assert_eq!(rt; by.learn(9, b"nine"), Ok(3));
    }

    #[test]
    fn no_rows(rt: HostRuntime) {
        let mut rows = [KnownBinary {
            binary: 0,
            process: 0,
        }; 0];
        let mut by = ByBinary::over(&mut rows);
        assert_eq!(rt; by.process_for(1, b"a"), None);
        assert_eq!(rt; by.learn(1, b"a"), Err(Refusal::NoPlace));
    }

    #[test]
    fn one_process_for_all(rt: HostRuntime) {
        let mut by = BySlot;
        assert_eq!(rt; by.learn(1, b"a"), Ok(2));
        assert_eq!(rt; by.learn(4294967295, b"b"), Ok(2));
        assert_eq!(rt; by.process_for(2, b"c"), Some(2));
    }
}
