// The kind words.

ghost use Rattle.std.specs.Prelude.{◌≡◌, [], ◌∷◌, take, drop, MatchOption, ◌≢◌};
ghost use Rattle.sheet.specs.Words.{kind_named};
ghost use Rattle.events.specs.Kinds.{letters};
ghost use Rattle.events.specs.declared.kinds.Kind.{Kind as Kinds};

use events::kinds::Kind;

// The kind words are a table of the format. (`Kind` is of the crate `events`, so `TryFrom` cannot stand here.)
fn kind_of(x: u8, y: u8, z: u8) -> Option<Kind>
    ensures { result ≡ kind_named x y z }
{
    match (x, y, z) {
        (b'R', b'S', b'T') => Some(Kind::RunStarted),
        (b'R', b'F', b'N') => Some(Kind::RunFinished),
        (b'C', b'A', b'N') => Some(Kind::RunBeginCancel),
        (b'P', b'A', b'U') => Some(Kind::RunPaused),
        (b'C', b'O', b'N') => Some(Kind::RunContinued),
        (b'T', b'S', b'T') => Some(Kind::TestStarted),
        (b'R', b'T', b'R') => Some(Kind::TestRetryStarted),
        (b'A', b'F', b'R') => Some(Kind::TestAttemptFailedWillRetry),
        (b'T', b'F', b'N') => Some(Kind::TestFinished),
        (b'S', b'S', b'T') => Some(Kind::SetupScriptStarted),
        (b'S', b'F', b'N') => Some(Kind::SetupScriptFinished),
        (b'S', b'U', b'B') => Some(Kind::StressSubRunStarted),
        (b'S', b'U', b'F') => Some(Kind::StressSubRunFinished),
        (b'S', b'L', b'W') => Some(Kind::TestSlow),
        (b'S', b'S', b'L') => Some(Kind::SetupScriptSlow),
        (b'S', b'K', b'P') => Some(Kind::TestSkipped),
        _ => None,
    }
}

// The kind whose word stands in front, and the bytes behind it.
pub fn kind_word<'a>(line: &'a [u8]) -> Option<(Kind, &'a [u8])>
    ensures { MatchOption result ((k : Kinds) → take 3 line.now ≢ letters k) (λ p. (take 3 line.now ≡ letters p.0) × (p.1.now ≡ drop 3 line.now)) }
{
    let [x, y, z, rest @ ..] = line else {
        return None;
    };
    Some((kind_of(*x, *y, *z)?, rest))
}
