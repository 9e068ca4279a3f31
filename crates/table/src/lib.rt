// A table of rows over lent memory, with at most one row of each key, written once for every kind of row.
#![tactic(auto)]

ghost use Rattle.std.specs.Prelude.{◌≡◌, ℕ, ◌+◌, ◌≤◌, min, Bool, true, false, not, [], length, take, is_some, is_ok, MatchResult};
ghost use Rattle.table.specs.Count.{has, cut, put, pick};
ghost use Rattle.table.specs.Keyed.{lone, of, most, Single};
ghost use Rattle.table.specs.Law.{Stands};
ghost use Rattle.std.specs.List.{slice_get};
ghost use Rattle.refusal.specs.declared.Refusal.TheVariants.{NoPlace};

use moves::{close, place_of, put_in};
use refusal::Refusal;

mod moves;

// A kind of row: what its rows are told apart by, and by what they are ordered.
pub trait Row: Copy {
    type Key: Copy;

    ghost key_of: { Self → Self.Key };

    // Not the key's own `==`: a kind of row may tell its keys apart more coarsely.
    ghost same: { Self.Key → Self.Key → Bool };

    ghost rank_of: { Self → ℕ };

    fn key(&self) -> Self::Key
        ensures { result ≡ key_of self.now };

    fn has_key(&self, key: &Self::Key) -> bool
        ensures { result ≡ same key.now (key_of self.now) };

    // No default: a body that answers 0 would have to be right for every `rank_of`.
    fn rank(&self) -> u32
        ensures { result ≡ rank_of self.now };

    ghost reflexive: { (k : Self.Key) → same k k ≡ true };

    ghost symmetric: { (k l : Self.Key) → same k l ≡ true → same l k ≡ true };

    ghost transitive: { (k l m : Self.Key) → same k l ≡ true → same l m ≡ true → same k m ≡ true };
}

// The most rows that a table holds, whatever its memory.
const MOST: usize = 4096;

// The first `len` of some lent rows, of which it uses no more than 4,096. The libraries have no heap: memory is lent.
#[derive(Drop)]
pub struct Table<'a, R: Row> {
    rows: &'a mut [R],
    len: usize,
    ghost inside: { len ≤ length rows.now },
    ghost limit: { len ≤ most },
    ghost single: { Single R.same R.key_of (take len rows.now) },
}

#[tactic(auto, unfolding(crate::specs::Held::listed, crate::specs::Held::room))]
impl<'a, R: Row> Table<'a, R> {
    ghost use Rattle.table.specs.Held.{listed, room, takes};

    // A table with no row yet.
    pub fn over(rows: &'a mut [R]) -> Table<'a, R>
        ensures none { listed result ≡ [] }
        ensures places { room result ≡ min (length rows.old) most }
    {
        Table { rows, len: 0 }
    }

    // How many rows there are.
    pub fn count(&self) -> usize
        ensures all { result ≡ length (listed self.now) }
        ensures fits { result ≤ room self.now }
        ensures limit { room self.now ≤ most }
        ensures single { Single R.same R.key_of (listed self.now) }
    {
        self.len // within the room, as the type keeps it
    }

    // How many rows of new keys find a place yet.
    pub fn free(&self) -> usize
        ensures { length (listed self.now) + result ≡ room self.now }
    {
        self.rows.len().min(MOST) - self.len
    }

    // The row at a place in the order, counted from 0.
    pub fn at(&self, place: usize) -> Option<R>
        ensures { result ≡ slice_get (listed self.now) place }
    {
        self.as_slice().get(place).copied()
    }

    // The row of the key.
    pub fn get(&self, key: R::Key) -> Option<R>
        ensures { lone result ≡ pick (of R.same R.key_of key) (listed self.now) }
    {
        self.as_slice().iter().find(|r| r.has_key(&key)).copied()
    }

    // Would a row of this key need a new place?
    pub fn needs_place(&self, key: R::Key) -> bool
        ensures { result ≡ not (has (of R.same R.key_of key) (listed self.now)) }
    {
        self.get(key).is_none()
    }

    // Takes the row of the key out.
    pub fn remove(&mut self, key: R::Key) -> Option<R>
        ensures answer { lone result ≡ pick (of R.same R.key_of key) (listed self.old) }
        ensures after { listed self.new ≡ cut (of R.same R.key_of key) (listed self.old) }
        ensures missing { is_some result ≡ false → self.new ≡ self.old }
        ensures places { room self.new ≡ room self.old }
    {
        let place = place_of(self.as_slice(), key)?;
        let row = self.rows[place];
        close(self.rows, self.len, place);
        self.len -= 1;
        Some(row)
    }

    // Puts a row behind all rows of its rank or lower, once the row of its key is out.
    pub fn insert(&mut self, row: R) -> Result<(), Refusal>
        ensures decides { is_ok result ≡ takes (of R.same R.key_of (R.key_of row)) self.old }
        ensures after { MatchResult result (λ _. listed self.new ≡ put R.rank_of row (cut (of R.same R.key_of (R.key_of row)) (listed self.old))) (λ e. (e ≡ NoPlace) × (self.new ≡ self.old)) }
        ensures places { room self.new ≡ room self.old }
    {
        let _ = self.remove(row.key());
        if self.free() == 0 {
            return Err(Refusal::NoPlace);
        }
        put_in(self.rows, self.len, row);
        self.len += 1;
        Ok(())
    }

    // The rows that there are, in order.
    fn as_slice(&self) -> &[R]
        ensures { result.now ≡ listed self.now }
    {
        &self.rows[..self.len]
    }
}

// What every table of a kind of row keeps, whatever is put in and taken out.
pub fn laws_stand<R: Row>()
    ensures { Stands R.same R.key_of R.rank_of }
{}
