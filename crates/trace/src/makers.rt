// The trace events that a converter writes. Each maker takes what its event tells: a struct for what some of them take
// would stand for no thing of its own.

ghost use Rattle.std.specs.Prelude.{◌≡◌, ◌+◌, pos};
ghost use Rattle.trace.specs.declared.Category.TheVariants.{Test, Run};
ghost use Rattle.trace.specs.declared.Label.TheVariants.{Fixed};
ghost use Rattle.trace.specs.declared.Phase.TheVariants.{Instant};
ghost use Rattle.trace.specs.declared.Word.TheVariants.{Retry};
ghost use Rattle.trace.specs.declared.Arguments.TheVariants.{Absent, RunInstant};
ghost use Rattle.trace.specs.Events.{coded, begin_event, end_event, concurrency_event, results_event, cancel_event, paused_event, continued_event, slow_test_event, slow_script_event, flow_start_event, flow_finish_event, process_name_event, process_sort_event, thread_name_event, thread_sort_event, metadata_event};

use super::{Arguments, Category, Label, Lane, NamePattern, Phase, TraceEvent, Word};
use events::event::{TimeTaken, Timestamp};

// The lane of the counters.
const COUNTERS: Lane = (0, 0);

// The lane of the run.
const RUN: Lane = (0, 1);

// What names and sorts has no time.
const NO_TIME: Timestamp = Timestamp { micros: 0 };

// The event with these codes; an arrow counts from 1, and 0 is none.
#[tactic(auto, unfolding(crate::specs::Events::coded))]
fn coded_event(
    phase: Phase,
    category: Category,
    label: Label,
    at: Timestamp,
    lane: Lane,
    arrow: u64,
    arguments: Arguments,
) -> TraceEvent
    ensures { result ≡ coded phase category label at.micros lane arrow arguments }
{
    TraceEvent {
        phase: phase.letter(),
        category: category.code(),
        label: label.kind().code(),
        first: label.first(),
        second: label.second(),
        time: at.micros,
        process: u64::from(lane.0),
        lane: u64::from(lane.1),
        arrow,
        kind: arguments.kind().code(),
        arguments: arguments.numbers(),
    }
}

// An event that is called by a fixed word and has no arrow.
fn fixed(
    phase: Phase,
    category: Category,
    word: Word,
    at: Timestamp,
    lane: Lane,
    arguments: Arguments,
) -> TraceEvent
    ensures { result ≡ coded phase category (Fixed word) at.micros lane 0 arguments }
{
    coded_event(phase, category, Label::Fixed(word), at, lane, 0, arguments)
}

// A bar opens on a lane.
#[tactic(auto, unfolding(crate::specs::Events::begin_event))]
pub fn begin(
    lane: Lane,
    label: Label,
    category: Category,
    at: Timestamp,
    arguments: Arguments,
) -> TraceEvent
    ensures { result ≡ begin_event lane label category at arguments }
{
    coded_event(Phase::Begin, category, label, at, lane, 0, arguments)
}

// A bar closes on a lane. Two names for the two ends: with a phase as a parameter any phase could be asked for.
#[tactic(auto, unfolding(crate::specs::Events::end_event))]
pub fn end(
    lane: Lane,
    label: Label,
    category: Category,
    at: Timestamp,
    arguments: Arguments,
) -> TraceEvent
    ensures { result ≡ end_event lane label category at arguments }
{
    coded_event(Phase::End, category, label, at, lane, 0, arguments)
}

// An event of the run, on one of its lanes.
fn of_run(phase: Phase, word: Word, at: Timestamp, lane: Lane, arguments: Arguments) -> TraceEvent
    ensures { result ≡ coded phase Run (Fixed word) at.micros lane 0 arguments }
{
    fixed(phase, Category::Run, word, at, lane, arguments)
}

// How many tests and setup scripts run.
#[tactic(auto, unfolding(crate::specs::Events::concurrency_event))]
pub fn concurrency_counter(at: Timestamp, tests: u32, scripts: u32) -> TraceEvent
    ensures { result ≡ concurrency_event at tests scripts }
{
    let counts = Arguments::RunningCounts { tests, scripts };
    of_run(Phase::Counter, Word::Concurrency, at, COUNTERS, counts)
}

// How many tests came out how.
#[tactic(auto, unfolding(crate::specs::Events::results_event))]
pub fn results_counter(at: Timestamp, passed: u32, flaky: u32, failed: u64) -> TraceEvent
    ensures { result ≡ results_event at passed flaky failed }
{
    let counts = Arguments::ResultCounts {
        passed,
        flaky,
        failed,
    };
    of_run(Phase::Counter, Word::TestResults, at, COUNTERS, counts)
}

// The run is cancelled, for a reason of the book.
#[tactic(auto, unfolding(crate::specs::Events::cancel_event))]
pub fn cancel_instant(at: Timestamp, running: u32, scripts: u32, reason: u32) -> TraceEvent
    ensures { result ≡ cancel_event at running scripts reason }
{
    let cancelled = Arguments::CancelInstant {
        running,
        scripts,
        reason,
    };
    of_run(Phase::Instant, Word::Cancel, at, RUN, cancelled)
}

// An instant of the run that tells how many tests and setup scripts run.
fn run_instant(word: Word, at: Timestamp, running: u32, scripts: u32) -> TraceEvent
    ensures { result ≡ coded Instant Run (Fixed word) at.micros (0, 1) 0 (RunInstant running scripts) }
{
    let counts = Arguments::RunInstant { running, scripts };
    of_run(Phase::Instant, word, at, RUN, counts)
}

#[tactic(auto, unfolding(crate::specs::Events::paused_event))]
pub fn paused_instant(at: Timestamp, running: u32, scripts: u32) -> TraceEvent
    ensures { result ≡ paused_event at running scripts }
{
    run_instant(Word::Paused, at, running, scripts)
}

#[tactic(auto, unfolding(crate::specs::Events::continued_event))]
pub fn continued_instant(at: Timestamp, running: u32, scripts: u32) -> TraceEvent
    ensures { result ≡ continued_event at running scripts }
{
    run_instant(Word::Continued, at, running, scripts)
}

// A test is slow, on its lane.
#[tactic(auto, unfolding(crate::specs::Events::slow_test_event))]
pub fn slow_test(
    lane: Lane,
    at: Timestamp,
    binary: u32,
    test: u32,
    span: TimeTaken,
    terminate: bool,
    attempt: u32,
) -> TraceEvent
    ensures { result ≡ slow_test_event lane at binary test span terminate attempt }
{
    let slow = Arguments::TestSlow {
        binary,
        test,
        span,
        terminate,
        attempt,
    };
    fixed(Phase::Instant, Category::Test, Word::Slow, at, lane, slow)
}

// A setup script is slow, on its lane.
#[tactic(auto, unfolding(crate::specs::Events::slow_script_event))]
pub fn slow_script(
    lane: Lane,
    at: Timestamp,
    script: u32,
    span: TimeTaken,
    terminate: bool,
) -> TraceEvent
    ensures { result ≡ slow_script_event lane at script span terminate }
{
    let slow = Arguments::ScriptSlow {
        script,
        span,
        terminate,
    };
    fixed(
        Phase::Instant,
        Category::SetupScript,
        Word::Slow,
        at,
        lane,
        slow,
    )
}

// One end of an arrow, whose number is told by one more than itself.
fn flow(phase: Phase, lane: Lane, at: Timestamp, arrow: u32) -> TraceEvent
    ensures { result ≡ coded phase Test (Fixed Retry) at.micros lane (arrow + 1) Absent }
{
    let retry = Label::Fixed(Word::Retry);
    coded_event(
        phase,
        Category::Test,
        retry,
        at,
        lane,
        u64::from(arrow) + 1,
        Arguments::Absent,
    )
}

// An arrow starts at a failed attempt that is tried again.
#[tactic(auto, unfolding(crate::specs::Events::flow_start_event))]
pub fn flow_start(lane: Lane, at: Timestamp, arrow: u32) -> TraceEvent
    ensures { result ≡ flow_start_event lane at arrow }
{
    flow(Phase::FlowStart, lane, at, arrow)
}

// The arrow finishes at the next attempt.
#[tactic(auto, unfolding(crate::specs::Events::flow_finish_event))]
pub fn flow_finish(lane: Lane, at: Timestamp, arrow: u32) -> TraceEvent
    ensures { result ≡ flow_finish_event lane at arrow }
{
    flow(Phase::FlowFinish, lane, at, arrow)
}

// What names and sorts; each of the four below has a name of its own, so that no other word can be asked for.
#[tactic(auto, unfolding(crate::specs::Events::metadata_event))]
fn metadata(word: Word, lane: Lane, arguments: Arguments) -> TraceEvent
    ensures { result ≡ metadata_event word lane arguments }
{
    fixed(
        Phase::Metadata,
        Category::Empty,
        word,
        NO_TIME,
        lane,
        arguments,
    )
}

// What a process is called.
#[tactic(auto, unfolding(crate::specs::Events::process_name_event))]
pub fn process_name(process: u32, pattern: NamePattern) -> TraceEvent
    ensures { result ≡ process_name_event process pattern }
{
    metadata(
        Word::ProcessName,
        (process, 0),
        Arguments::MetadataName(pattern),
    )
}

// Where a process is sorted: by its number.
#[tactic(auto, unfolding(crate::specs::Events::process_sort_event))]
pub fn process_sort_index(process: u32) -> TraceEvent
    ensures { result ≡ process_sort_event process }
{
    metadata(
        Word::ProcessSortIndex,
        (process, 0),
        Arguments::SortIndex(process),
    )
}

// What a lane is called.
#[tactic(auto, unfolding(crate::specs::Events::thread_name_event))]
pub fn thread_name(lane: Lane, pattern: NamePattern) -> TraceEvent
    ensures { result ≡ thread_name_event lane pattern }
{
    metadata(Word::ThreadName, lane, Arguments::MetadataName(pattern))
}

// Where a lane is sorted in its process: by its number.
#[tactic(auto, unfolding(crate::specs::Events::thread_sort_event))]
pub fn thread_sort_index(lane: Lane) -> TraceEvent
    ensures { result ≡ thread_sort_event lane }
{
    metadata(Word::ThreadSortIndex, lane, Arguments::SortIndex(lane.1))
}
