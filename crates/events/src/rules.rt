// The rules that single numbers and texts keep.

ghost use Rattle.std.specs.Prelude.{◌≡◌, length};
ghost use Rattle.events.specs.Rules.{time_keeps, within, is_text, text_keeps, all_printable};

use crate::event::Timestamp;
use crate::kinds::COUNTS;

// The furthest that a time may be from 0.
pub const FURTHEST: u64 = 9007199254740991;

impl Timestamp {
    // Whether the time is in its range.
    pub fn keeps(self) -> bool
        ensures { result ≡ time_keeps self.micros }
    {
        self.micros.unsigned_abs() <= FURTHEST
    }
}

// Whether no number is above its limit.
pub fn within_limits(limits: &[u32; COUNTS], counts: &[u32; COUNTS]) -> bool
    ensures { result ≡ within limits.now counts.now }
{
    counts.iter().zip(limits).all(|(n, limit)| n <= limit)
}

// Whether a text has 1 to 255 bytes, each of them printable.
pub fn is_text(text: &[u8]) -> bool
    ensures { result ≡ is_text text.now }
{
    text.len() >= 1 && text.len() <= 255 && all_printable(text)
}

// Whether a text is one where it is used, and empty where it is not.
pub fn text_keeps(used: bool, text: &[u8]) -> bool
    ensures { result ≡ text_keeps used text.now }
{
    if used { is_text(text) } else { text.is_empty() }
}

fn all_printable(text: &[u8]) -> bool
    ensures { result ≡ all_printable text.now }
{
    text.iter().all(|byte| (0x20..=0x7e).contains(byte))
}
