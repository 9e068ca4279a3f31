// Every refusal of the product, with its number and its layer.
#![tactic(auto)]

ghost use Rattle.std.specs.Prelude.{◌≡◌};
ghost use Rattle.refusal.specs.Numbers.{number_of, layer_of, layer_number};

// Why a sheet, an event or a buffer was refused.
#[derive(Clone, Copy, Debug, PartialEq, Eq)]
pub enum Refusal {
    // the sheet ends inside a line
    ShortLine = 1,
    // a line begins with no kind word
    UnknownKind = 2,
    // a number is malformed, out of range, or not 0 where unused
    BadNumber = 3,
    // a text or its length breaks the rules, or the line does not follow in full
    BadText = 4,
    // a test is slow, failed or finished that does not run
    MissingTestStart = 5,
    // a setup script is slow or finished that does not run
    MissingScriptStart = 6,
    // a stress sub-run is finished and none runs
    MissingStressSubRunStart = 7,
    // the run bar is in a state in which the event is not taken
    WrongBarState = 8,
    // what starts runs already, or its place is taken
    StartClash = 9,
    // the run finishes while something runs
    StillRunning = 10,
    // a new text finds no entry or no bytes in the name book
    BookFull = 11,
    // a new row finds no place, or the grouping has no process to offer
    NoPlace = 12,
    // a count or the arrow numbers are used up
    CountExhausted = 13,
    // the sink has too few free places
    SinkFull = 14,
    // a code or a book number is unknown, or the output is too small
    Unwritable = 15,
}

// Which part of the product refuses.
#[derive(Clone, Copy, Debug, PartialEq, Eq)]
pub enum Layer {
    Reader = 1,
    Step = 2,
    Storage = 3,
    Writer = 4,
}

impl Refusal {
    pub fn number(self) -> u32
        ensures { result ≡ number_of self }
    {
        self as u32 // 1 to 15
    }

    pub fn layer(self) -> Layer
        ensures { result ≡ layer_of self }
    {
        match self {
            Refusal::ShortLine | Refusal::UnknownKind | Refusal::BadNumber | Refusal::BadText =>
                Layer::Reader,
            Refusal::MissingTestStart
            | Refusal::MissingScriptStart
            | Refusal::MissingStressSubRunStart
            | Refusal::WrongBarState
            | Refusal::StartClash
            | Refusal::StillRunning => Layer::Step,
            Refusal::BookFull | Refusal::NoPlace | Refusal::CountExhausted | Refusal::SinkFull =>
                Layer::Storage,
            Refusal::Unwritable => Layer::Writer,
        }
    }
}

impl Layer {
    pub fn number(self) -> u32
        ensures { result ≡ layer_number self }
    {
        self as u32 // 1 to 4
    }
}
