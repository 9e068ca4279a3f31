// Examples of number columns, run.
#![tactic(auto)]

#[cfg(test)]
mod tests {
    use columns::{read, write, write_digits};

    #[test]
    fn reads_what_is_a_column(rt: HostRuntime) {
        assert_eq!(rt; read::<u64>(b"0"), Some(0));
        assert_eq!(rt; read::<i64>(b"                   0"), Some(0));
        assert_eq!(rt; read::<u64>(b"  65"), Some(65));
        assert_eq!(rt; read::<i64>(b"  -1"), Some(-1));
        assert_eq!(rt; read::<u64>(b"18446744073709551615"), Some(u64::MAX));
        assert_eq!(rt; read::<i64>(b"-9223372036854775808"), Some(i64::MIN));
        assert_eq!(rt; read::<i64>(b" 9223372036854775807"), Some(i64::MAX));
    }

    #[test]
    fn refuses_what_does_not_fit(rt: HostRuntime) {
        assert_eq!(rt; read::<u64>(b"18446744073709551616"), None);
        assert_eq!(rt; read::<u64>(b"36893488147419103232"), None);
        assert_eq!(rt; read::<u64>(b"99999999999999999999"), None);
        assert_eq!(rt; read::<u64>(b"  -1"), None);
        assert_eq!(rt; read::<i64>(b" 9223372036854775808"), None);
        assert_eq!(rt; read::<i64>(b"-9223372036854775809"), None);
    }

    #[test]
    fn refuses_what_is_no_number(rt: HostRuntime) {
        let malformed: [&[u8]; 16] = [
            b"", b" ", b"-", b"    ", b"  -0", b"  00", b"  01", b" -01", b"  +1", b" - 1",
            b" --1", b"  1-", b"  1 ", b" \t 1", b" 1:2", b"1  1",
        ];
        for bytes in malformed {
            assert_eq!(rt; read::<i64>(bytes), None);
            assert_eq!(rt; read::<u64>(bytes), None);
        }
    }

    #[test]
    fn writes_at_the_right_end(rt: HostRuntime) {
        let mut out = *b"xxxxxxxxxxxxxxxxxxxx";
        assert!(rt; write(&mut out, i64::MIN).is_ok());
        assert_eq!(rt; out, *b"-9223372036854775808");
        assert!(rt; write::<i64>(&mut out, -7).is_ok());
        assert_eq!(rt; out, *b"                  -7");
        assert!(rt; write(&mut out, u64::MAX).is_ok());
        assert_eq!(rt; out, *b"18446744073709551615");
        assert!(rt; write::<u64>(&mut out, 0).is_ok());
        assert_eq!(rt; out, *b"                   0");
    }

    #[test]
    fn refuses_a_width_one_too_few(rt: HostRuntime) {
        let mut out = *b"xyz";
        assert!(rt; write::<i64>(&mut out, -100).is_err());
        assert!(rt; write::<u64>(&mut out, 1000).is_err());
        assert_eq!(rt; write_digits(&mut out, 1000), None);
        assert_eq!(rt; out, *b"xyz");
        assert_eq!(rt; write_digits(&mut out, 42), Some(1));
        assert_eq!(rt; out, *b"x42");
        assert!(rt; write::<i64>(&mut out, -10).is_ok());
        assert_eq!(rt; out, *b"-10");
        assert!(rt; write::<u64>(&mut out, 255).is_ok());
        assert_eq!(rt; out, *b"255");
    }
}
