ghost use Rattle.std.specs.Prelude.{◌≡◌};
ghost use Rattle.events.specs.Kinds.{limits, uses_a, uses_b};

// The kinds of event, each with its three-letter kind word.
#[derive(Clone, Copy, Debug, PartialEq, Eq)]
pub enum Kind {
    RunStarted,
    RunFinished,
    RunBeginCancel,
    RunPaused,
    RunContinued,
    TestStarted,
    TestRetryStarted,
    TestAttemptFailedWillRetry,
    TestFinished,
    SetupScriptStarted,
    SetupScriptFinished,
    StressSubRunStarted,
    StressSubRunFinished,
    TestSlow,
    SetupScriptSlow,
    TestSkipped,
}

// How many numbers a line has behind its time: N1 to N13.
pub const COUNTS: usize = 13;

// The highest of a count, of seconds and of a total.
const COUNT: u32 = 4294967295;
// The highest slot or index.
const PLACE: u32 = 65535;
// The highest number of nanoseconds.
const NANOS: u32 = 999999999;
// A flag is 0 or 1.
const FLAG: u32 = 1;

impl Kind {
    // The highest that each of N1 to N13 may be: 0 where it is unused.
    pub fn limits(self) -> [u32; COUNTS]
        ensures { result ≡ limits self }
    {
        match self {
            Kind::RunStarted
            | Kind::RunFinished
            | Kind::StressSubRunStarted
            | Kind::StressSubRunFinished
            | Kind::TestSkipped => [0; COUNTS],
            Kind::RunBeginCancel | Kind::RunPaused | Kind::RunContinued => {
                [COUNT, COUNT, 0, 0, 0, 0, 0, 0, 0, 0, 0, 0, 0]
            }
            Kind::TestStarted => [COUNT, 0, PLACE, 0, 0, 0, 0, 0, 0, 0, 0, 0, 0],
            Kind::TestRetryStarted => [COUNT, 0, PLACE, COUNT, COUNT, 0, 0, 0, 0, 0, 0, 0, 0],
            Kind::TestAttemptFailedWillRetry => {
                [COUNT, 0, 0, COUNT, COUNT, COUNT, NANOS, FLAG, 0, 0, 0, 0, 0]
            }
            Kind::TestFinished => {
                [
                    COUNT, 0, 0, COUNT, COUNT, COUNT, NANOS, FLAG, COUNT, COUNT, COUNT, COUNT,
                    COUNT,
                ]
            }
            Kind::SetupScriptStarted => [0, 0, PLACE, 0, 0, 0, 0, 0, 0, 0, 0, 0, 0],
            Kind::SetupScriptFinished => [0, 0, PLACE, 0, 0, COUNT, NANOS, FLAG, 0, 0, 0, 0, 0],
            Kind::TestSlow => [0, 0, 0, COUNT, 0, COUNT, NANOS, FLAG, 0, 0, 0, 0, 0],
            Kind::SetupScriptSlow => [0, 0, 0, 0, 0, COUNT, NANOS, FLAG, 0, 0, 0, 0, 0],
        }
    }

    // Whether text A is used.
    pub fn uses_a(self) -> bool
        ensures { result ≡ uses_a self }
    {
        match self {
            Kind::RunFinished
            | Kind::RunPaused
            | Kind::RunContinued
            | Kind::StressSubRunStarted
            | Kind::StressSubRunFinished => false,
            _ => true,
        }
    }

    // Whether text B is used.
    pub fn uses_b(self) -> bool
        ensures { result ≡ uses_b self }
    {
        match self {
            Kind::RunStarted
            | Kind::TestStarted
            | Kind::TestRetryStarted
            | Kind::TestAttemptFailedWillRetry
            | Kind::TestFinished
            | Kind::TestSlow
            | Kind::TestSkipped => true,
            _ => false,
        }
    }
}
