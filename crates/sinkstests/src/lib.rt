// Sinks run at their edges: no place, exactly full, a byte too few, the widest numbers, more than one line.
#![tactic(auto)]

#[cfg(test)]
mod tests {
    use refusal::Refusal;
    use sinks::{RecordList, Sink, TraceSheet, append_all};
    use trace::makers::{begin, concurrency_counter};
    use trace::{Arguments, Category, Label, Timestamp, TraceEvent};

    // Each number as wide as it can be.
    fn widest(time: i64) -> TraceEvent {
        TraceEvent {
            phase: 255,
            category: 18_446_744_073_709_551_615,
            label: 18_446_744_073_709_551_614,
            first: 10_000_000_000_000_000_000,
            second: 18_446_744_073_709_551_613,
            time,
            process: 18_446_744_073_709_551_612,
            lane: 18_446_744_073_709_551_611,
            arrow: 18_446_744_073_709_551_610,
            kind: 18_446_744_073_709_551_609,
            arguments: [18_446_744_073_709_551_615; 7],
        }
    }

    fn latest() -> TraceEvent {
        widest(i64::MAX)
    }

    fn earliest() -> TraceEvent {
        widest(i64::MIN)
    }

    fn counter(tests: u32) -> TraceEvent {
        concurrency_counter(Timestamp { micros: -5 }, tests, 2)
    }

    fn bar() -> TraceEvent {
        let arguments = Arguments::TestBegin { binary: 3, test: 4 };
        begin(
            (2, 10_000),
            Label::TwoTexts(3, 4),
            Category::Test,
            Timestamp { micros: 17 },
            arguments,
        )
    }

    fn put<S: Sink>(sink: &mut S, e: TraceEvent) -> bool {
        sink.append(e).is_ok()
    }

    // Is the event refused for want of a place?
    fn refused<S: Sink>(sink: &mut S, e: TraceEvent) -> bool {
        sink.append(e) == Err(Refusal::SinkFull)
    }

    // Are there so many events, and so many places left?
    fn sized<S: Sink>(sink: &S, count: usize, free: usize) -> bool {
        sink.count() == count && sink.free_places() == free
    }

    // Does this event stand at the place?
    fn holds<S: Sink>(sink: &S, place: usize, e: &TraceEvent) -> bool {
        sink.event_at(place) == Some(*e)
    }

    #[test]
    fn no_place(rt: HostRuntime) {
        let mut places: [TraceEvent; 0] = [];
        let mut list = RecordList::over(&mut places);
        let full = refused(&mut list, bar());
        assert!(rt; full & sized(&list, 0, 0) & list.event_at(0).is_none());
    }

    #[test]
    fn a_full_record_list(rt: HostRuntime) {
        let mut places = [TraceEvent::BLANK; 2];
        let mut list = RecordList::over(&mut places);
        let fresh = sized(&list, 0, 2) & list.event_at(0).is_none();
        let both = put(&mut list, bar()) & put(&mut list, counter(1));
        let full = refused(&mut list, counter(2)) & sized(&list, 2, 0);
        let kept = holds(&list, 0, &bar())
            & holds(&list, 1, &counter(1))
            & list.event_at(2).is_none();
        assert!(rt; fresh & both & full & kept & (list.as_events().len() == 2));
    }

    #[test]
    fn a_byte_less_than_a_line(rt: HostRuntime) {
        let mut memory = [0u8; 321];
        let mut sheet = TraceSheet::over(&mut memory);
        let full = refused(&mut sheet, bar()) & sized(&sheet, 0, 0);
        assert!(rt; full & sheet.event_at(0).is_none() & sheet.as_bytes().is_empty());
    }

    #[test]
    fn a_line_and_a_byte_less_than_the_next(rt: HostRuntime) {
        let mut memory = [7u8; 643];
        let mut sheet = TraceSheet::over(&mut memory);
        let one = sized(&sheet, 0, 1) & put(&mut sheet, counter(3));
        let full = refused(&mut sheet, bar()) & sized(&sheet, 1, 0) & holds(&sheet, 0, &counter(3));
        let text = sheet.as_bytes()
            == b"C                   4                   1                   3                   0                  -5                   0                   0                   0                   9                   3                   2                   0                   0                   0                   0                   0\n".as_slice();
        assert!(rt; one & full & text);
    }

    #[test]
    fn the_widest_numbers_come_back(rt: HostRuntime) {
        let mut memory = [0u8; 1000];
        let mut sheet = TraceSheet::over(&mut memory);
        let three = put(&mut sheet, latest())
            & put(&mut sheet, earliest())
            & put(&mut sheet, bar());
        let full = refused(&mut sheet, bar()) & sized(&sheet, 3, 0);
        let first = holds(&sheet, 0, &latest()) & holds(&sheet, 1, &earliest());
        let rest = holds(&sheet, 2, &bar()) & sheet.event_at(3).is_none();
        assert!(rt; three & full & first & rest & (sheet.as_bytes().len() == 966));
    }

    #[test]
    fn all_or_none(rt: HostRuntime) {
        let mut memory = [0u8; 1000];
        let mut sheet = TraceSheet::over(&mut memory);
        let events = [bar(), counter(1)];
        let all = append_all(&mut sheet, &events).is_ok() & sized(&sheet, 2, 1);
        let none = append_all(&mut sheet, &events).is_err() & sized(&sheet, 2, 1);
        let last = put(&mut sheet, counter(9));
        assert!(rt;
            all & none & last & holds(&sheet, 1, &counter(1)) & holds(&sheet, 2, &counter(9))
        );
    }
}
