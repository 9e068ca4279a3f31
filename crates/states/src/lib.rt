// The two states of a converter, as values that move: it records, and then it is finished.
#![tactic(auto)]

ghost use Rattle.std.specs.Prelude.{◌≡◌, MatchResult};
ghost use Rattle.names.specs.Book.{shelf_of};
ghost use Rattle.names.specs.Shelf.{entered};
ghost use Rattle.states.specs.States.{fresh, started, ended};

use events::rules::is_text;
use names::NameBook;
use refusal::Refusal;

// What the bar of the run on its lane is like.
#[derive(Clone, Copy, Debug, PartialEq, Eq)]
pub enum RunBarState {
    Closed,
    Open,
    Paused,
}

// What a trace tells beside its events: texts, by their numbers in the name book.
#[derive(Clone, Copy, Debug, PartialEq, Eq)]
pub struct OtherData {
    pub version: u32,
    // of the last run, where a run started
    pub run_id: Option<u32>,
    pub profile_name: Option<u32>,
}

// A converter that takes events. It can be neither copied nor let go: it has to be finished.
pub struct Recording {
    pub run_bar_state: RunBarState,
    pub running_test_count: u32,
    pub running_script_count: u32,
    pub stress_subrun_open: bool,
    // how many arrows there were so far, and so the next one's number
    pub next_flow_id: u32,
    pub other_data: OtherData,
}

// A trace that takes no more events, with what it tells beside them.
// Only a recording that is finished becomes one.
pub struct Finished {
    other_data: OtherData,
}

impl Recording {
    // Starts with a version text, which gets its number in the book.
    pub fn new(book: &mut NameBook, version: &[u8]) -> Result<Recording, Refusal>
        ensures answer { result ≡ started (shelf_of book.old) version.now }
        ensures after { MatchResult result (λ _. shelf_of book.new ≡ entered (shelf_of book.old) version.now) (λ _. book.new ≡ book.old) }
    {
        if !is_text(version) {
            return Err(Refusal::BadText);
        }
        let number = book.enter(version)?;
        Ok(Recording::at(number))
    }

    // Nothing has happened yet.
    fn at(version: u32) -> Recording
        ensures { result ≡ fresh version }
    {
        Recording {
            run_bar_state: RunBarState::Closed,
            running_test_count: 0,
            running_script_count: 0,
            stress_subrun_open: false,
            next_flow_id: 0,
            other_data: OtherData {
                version,
                run_id: None,
                profile_name: None,
            },
        }
    }

    // Ends the recording.
    pub fn finish(self) -> Finished
        ensures { result ≡ ended self }
    {
        let Recording {
            run_bar_state: _,
            running_test_count: _,
            running_script_count: _,
            stress_subrun_open: _,
            next_flow_id: _,
            other_data,
        } = self;
        Finished { other_data }
    }
}

impl Finished {
    // What the trace tells beside its events.
    pub fn other_data(&self) -> OtherData
        ensures { result ≡ self.now.other_data }
    {
        self.other_data
    }

    // Gives up the trace, and says what it told.
    pub fn close(self) -> OtherData
        ensures { result ≡ self.other_data }
    {
        let Finished { other_data } = self;
        other_data
    }
}
