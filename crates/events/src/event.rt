// Microseconds since the start of 1970, negative before it.
#[derive(Clone, Copy, Debug, PartialEq, Eq)]
pub struct Timestamp {
    pub micros: i64,
}

// How long something took.
#[derive(Clone, Copy, Debug, PartialEq, Eq)]
pub struct TimeTaken {
    pub seconds: u32,
    pub nanoseconds: u32,
}

// Which attempt of how many.
#[derive(Clone, Copy, Debug, PartialEq, Eq)]
pub struct RetryData {
    pub attempt: u32,
    pub total_attempts: u32,
}

// The results of a run so far.
#[derive(Clone, Copy, Debug, PartialEq, Eq)]
pub struct RunStats {
    pub passed: u32,
    pub flaky: u32,
    pub failed: u32,
    pub exec_failed: u32,
    pub failed_timed_out: u32,
}

// A test is told by its binary and its name.
#[derive(Clone, Copy, Debug)]
pub struct TestInstanceId<'a> {
    pub binary_id: &'a [u8],
    pub test_name: &'a [u8],
}

// What happened; each text is a part of the sheet that it was read from.
#[derive(Clone, Copy, Debug)]
pub enum EventKind<'a> {
    RunStarted {
        run_id: &'a [u8],
        profile_name: &'a [u8],
    },
    RunFinished,
    RunBeginCancel {
        running: u32,
        setup_scripts_running: u32,
        reason: &'a [u8],
    },
    RunPaused {
        running: u32,
        setup_scripts_running: u32,
    },
    RunContinued {
        running: u32,
        setup_scripts_running: u32,
    },
    TestStarted {
        running: u32,
        slot: u32,
        test_instance: TestInstanceId<'a>,
    },
    TestRetryStarted {
        running: u32,
        slot: u32,
        retry_data: RetryData,
        test_instance: TestInstanceId<'a>,
    },
    TestAttemptFailedWillRetry {
        running: u32,
        retry_data: RetryData,
        time_taken: TimeTaken,
        is_slow: bool,
        test_instance: TestInstanceId<'a>,
    },
    TestFinished {
        running: u32,
        retry_data: RetryData,
        time_taken: TimeTaken,
        is_slow: bool,
        current_stats: RunStats,
        test_instance: TestInstanceId<'a>,
    },
    SetupScriptStarted {
        index: u32,
        script_id: &'a [u8],
    },
    SetupScriptFinished {
        index: u32,
        time_taken: TimeTaken,
        is_slow: bool,
        script_id: &'a [u8],
    },
    StressSubRunStarted,
    StressSubRunFinished,
    TestSlow {
        attempt: u32,
        elapsed: TimeTaken,
        will_terminate: bool,
        test_instance: TestInstanceId<'a>,
    },
    SetupScriptSlow {
        elapsed: TimeTaken,
        will_terminate: bool,
        script_id: &'a [u8],
    },
    TestSkipped {
        test_instance: TestInstanceId<'a>,
    },
}

#[derive(Clone, Copy, Debug)]
pub struct Event<'a> {
    pub timestamp: Timestamp,
    pub kind: EventKind<'a>,
}
