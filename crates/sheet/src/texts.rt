// The texts of a line.

ghost use Rattle.std.specs.Prelude.{◌≡◌, ℕ, ◌≤◌, List, ◌∷◌, ◌++◌, length, MatchOption, ◌≢◌};
ghost use Rattle.sheet.specs.Texts.{Cut, Found, TextsRead};

use crate::numbers::read_count;

const LONGEST_TEXT: u32 = 255;

// The texts of these lengths that stand in front of a line feed, if they do.
fn cut_texts<'a>(bytes: &'a [u8], a: usize, b: usize) -> Option<(&'a [u8], &'a [u8])>
    requires { (a ≤ 255) × (b ≤ 255) }
    ensures { MatchOption result ((x y rest : List ℕ) → length x ≡ a → length y ≡ b → bytes.now ≢ x ++ (y ++ (10 ∷ rest))) (λ p. Cut a b bytes.now p.0.now p.1.now) }
{
    if bytes.len() <= a + b || bytes[a + b] != b'\n' {
        return None;
    }
    Some(bytes[..a + b].split_at(a))
}

// The two texts that follow their lengths and stand in front of a line feed, if they do.
pub(crate) fn read_texts<'a>(bytes: &'a [u8]) -> Option<(&'a [u8], &'a [u8])>
    requires { 9 ≤ length bytes.now }
    ensures { MatchOption result ((x y rest : List ℕ) → length x ≤ 255 → length y ≤ 255 → TextsRead bytes.now x y rest → ⊥) (λ p. Found bytes.now p.0.now p.1.now) }
{
    let a = read_count(&bytes[..4], LONGEST_TEXT)?;
    let b = read_count(&bytes[4..8], LONGEST_TEXT)?;
    cut_texts(&bytes[8..], a as usize, b as usize)
}
