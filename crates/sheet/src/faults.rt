// What can be wrong with a line.

ghost use Rattle.std.specs.Prelude.{◌≡◌};
ghost use Rattle.sheet.specs.Faults.{refusal_of, column_named};

use refusal::Refusal;
use std::error::Error;
use std::fmt;

// The first fault of a line.
#[derive(Clone, Copy, Debug, PartialEq, Eq)]
pub enum Fault {
    // some bytes are left, too few for a line
    ShortLine,
    UnknownKind,
    // the number of this place, 0 to 13, is the first that is malformed, out of range, or not 0 where unused
    BadNumber(u8),
    // a text or its length breaks the rules, or texts and line feed do not follow in full
    BadText,
}

impl Fault {
    ghost use Rattle.sheet.specs.Sentences.{sentence_of};

    pub fn refusal(self) -> Refusal
        ensures { result ≡ refusal_of self }
    {
        match self {
            Fault::ShortLine => Refusal::ShortLine,
            Fault::UnknownKind => Refusal::UnknownKind,
            Fault::BadNumber(_) => Refusal::BadNumber,
            Fault::BadText => Refusal::BadText,
        }
    }

    // Where in its line the fault stands, counted from 1.
    pub fn column(self) -> usize
        ensures { result ≡ column_named self }
    {
        match self {
            Fault::ShortLine | Fault::UnknownKind => 1,
            Fault::BadNumber(place) => 4 + 20 * usize::from(place),
            Fault::BadText => 284,
        }
    }

    // What the fault means, in words.
    pub fn sentence(self) -> &'static str
        ensures { result.now ≡ sentence_of self }
    {
        match self {
            Fault::ShortLine => "the sheet ends inside this line: a line has at least 292 bytes",
            Fault::UnknownKind => "the line begins with no known kind word",
            Fault::BadNumber(_) =>
                "the number that begins here is malformed, out of its range, or not 0 where the kind has no use for it",
            Fault::BadText =>
                "a text or its length breaks the rules, or the texts and the line feed do not follow in full",
        }
    }
}

impl fmt::Display for Fault {
    ghost use Rattle.std.specs.Prelude.{Some};
    ghost use Rattle.sheet.specs.Sentences.{sentence_of};

    ghost output = { λ fault. Some (sentence_of fault) };

    fn fmt<W: fmt::Write>(&self, f: &mut fmt::Formatter<W>) -> fmt::Result {
        f.write_str(self.sentence())
    }
}

impl Error for Fault {}
