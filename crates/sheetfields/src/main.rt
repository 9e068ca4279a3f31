// Reads one line of each kind, and holds every field of its event against what the line was made to say.
#![tactic(auto)]

use events::event::{Event, EventKind, RetryData, RunStats, TestInstanceId, TimeTaken};
use sheet::reader::SheetReader;
use std::io::Read;

fn is_test(id: TestInstanceId) -> bool {
    id.binary_id == b"bin".as_slice() && id.test_name == b"a \"test\"".as_slice()
}

fn is_second_of_five(r: RetryData) -> bool {
    r == RetryData {
        attempt: 2,
        total_attempts: 5,
    }
}

fn is_taken(t: TimeTaken) -> bool {
    t == TimeTaken {
        seconds: 6,
        nanoseconds: 999999999,
    }
}

fn are_stats(s: RunStats) -> bool {
    s == RunStats {
        passed: 9,
        flaky: 10,
        failed: 11,
        exec_failed: 12,
        failed_timed_out: 13,
    }
}

fn is_run_event(kind: EventKind) -> bool {
    match kind {
        EventKind::RunStarted {
            run_id,
            profile_name,
        } => { run_id == b"id".as_slice() && profile_name == b"rack".as_slice() }
        EventKind::RunBeginCancel {
            running,
            setup_scripts_running,
            reason,
        } => { running == 2 && setup_scripts_running == 3 && reason == b"signal".as_slice() }
        EventKind::RunPaused {
            running,
            setup_scripts_running,
        } => running == 4 && setup_scripts_running == 5,
        EventKind::RunContinued {
            running,
            setup_scripts_running,
        } => running == 6 && setup_scripts_running == 7,
        EventKind::RunFinished | EventKind::StressSubRunStarted | EventKind::StressSubRunFinished =>
            true,
        _ => false,
    }
}

fn is_test_event(kind: EventKind) -> bool {
    match kind {
        EventKind::TestStarted {
            running,
            slot,
            test_instance,
        } => running == 2 && slot == 3 && is_test(test_instance),
        EventKind::TestRetryStarted {
            running,
            slot,
            retry_data,
            test_instance,
        } => {
            running == 8 && slot == 65535 && is_second_of_five(retry_data) && is_test(test_instance)
        }
        EventKind::TestAttemptFailedWillRetry {
            running,
            retry_data,
            time_taken,
            is_slow,
            test_instance,
        } => {
            running == 7
                && is_slow
                && is_second_of_five(retry_data)
                && is_taken(time_taken)
                && is_test(test_instance)
        }
        EventKind::TestSlow {
            attempt,
            elapsed,
            will_terminate,
            test_instance,
        } => { attempt == 4 && will_terminate && is_taken(elapsed) && is_test(test_instance) }
        EventKind::TestSkipped { test_instance } => is_test(test_instance),
        _ => false,
    }
}

fn is_end_event(kind: EventKind) -> bool {
    match kind {
        EventKind::TestFinished {
            running,
            retry_data,
            time_taken,
            is_slow,
            current_stats,
            test_instance,
        } => {
            running == 4294967295
                && !is_slow
                && is_second_of_five(retry_data)
                && is_taken(time_taken)
                && are_stats(current_stats)
                && is_test(test_instance)
        }
        EventKind::SetupScriptStarted { index, script_id } => index == 65535
            && script_id == b"db".as_slice(),
        EventKind::SetupScriptFinished {
            index,
            time_taken,
            is_slow,
            script_id,
        } => { index == 3 && is_slow && is_taken(time_taken) && script_id == b"db".as_slice() }
        EventKind::SetupScriptSlow {
            elapsed,
            will_terminate,
            script_id,
        } => { !will_terminate && is_taken(elapsed) && script_id == b"db".as_slice() }
        _ => false,
    }
}

fn is_wanted(event: Event, line: i64) -> bool {
    event.timestamp.micros == line
        && (is_run_event(event.kind) || is_test_event(event.kind) || is_end_event(event.kind))
}

// How many lines are counted.
const MOST: i64 = 1000;

// How many lines from the first say what is wanted, up to 1,000.
fn wanted_lines(sheet: &[u8]) -> i64 {
    let mut reader = SheetReader::new(sheet);
    let mut lines = 0i64;
    while let Ok(Some(event)) = reader.next() {
        if lines == MOST || !is_wanted(event, lines) {
            break;
        }
        lines = lines.saturating_add(1);
    }
    lines
}

fn main(rt: HostRuntime) -> anyhow::Result<()> {
    let mut sheet = Vec::new(rt.alloc());
    rt.stdin().read_to_end(&mut sheet)?;
    let lines = wanted_lines(sheet.as_slice());
    println!(rt; "{lines} lines say what they were made to say")?;
    Ok(())
}
