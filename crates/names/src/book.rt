ghost use Rattle.std.specs.Prelude.{◌≡◌, ◌+◌, ◌-◌, ◌<◌, ◌≤◌, true, false, ◌++◌, length, take, drop, Some, None, Ok, Err, MatchOption, MatchResult};
ghost use Rattle.names.specs.Texts.{has, found, text_at};
ghost use Rattle.names.specs.Kept.{part_of, Kept};
ghost use Rattle.names.specs.Shelf.{next_number, empty, most, added, entered, planned_one, planned, part_in};

use refusal::Refusal;

// A book has at most this many texts.
const MOST: usize = 65535;

// Where a text stands in a book's bytes.
#[derive(Clone, Copy, Debug)]
pub struct Entry {
    start: usize,
    len: usize,
}

impl Entry {
    // What the lent entries may hold at first.
    pub const BLANK: Entry = Entry { start: 0, len: 0 };
}

// A word to be shown: a text of the book, or a part of the fixed words.
#[derive(Clone, Copy, Debug, PartialEq, Eq)]
pub enum Shown {
    BookText(u32),
    FixedWord { start: usize, len: usize },
}

// Texts by number: the first `count` entries have texts in the first `used` bytes. The libraries have no heap: memory is
// lent.
#[derive(Drop)]
pub struct NameBook<'a> {
    entries: &'a mut [Entry],
    bytes: &'a mut [u8],
    count: usize,
    used: usize,
    ghost kept: { Kept entries.now bytes.now count used },
}

// How many texts there are, and how much is free.
#[derive(Clone, Copy)]
struct Space {
    count: usize,
    entries: usize,
    bytes: usize,
}

impl Space {
    // The number of one more text of a length.
    fn next(self, len: usize) -> Result<u32, Refusal>
        ensures { result ≡ next_number self.count self.entries self.bytes len }
    {
        if self.entries > 0 && len <= self.bytes && self.count < MOST {
            Ok(self.count as u32 + 1)
        } else {
            Err(Refusal::BookFull)
        }
    }
}

impl<'a> NameBook<'a> {
    ghost use Rattle.names.specs.Book.{shelf_of, space_of, texts, free_entries, free_bytes, shown_of};

    // An empty book over lent memory.
    pub fn over(entries: &'a mut [Entry], bytes: &'a mut [u8]) -> NameBook<'a>
        ensures { shelf_of result ≡ empty (length entries.old) (length bytes.old) }
    {
        NameBook {
            entries,
            bytes,
            count: 0,
            used: 0,
        }
    }

    // How many texts there are.
    pub fn count(&self) -> usize
        ensures { result ≡ length (texts self.now) }
    {
        self.space().count
    }

    pub fn free_entries(&self) -> usize
        ensures { result ≡ free_entries self.now }
    {
        self.space().entries
    }

    pub fn free_bytes(&self) -> usize
        ensures { result ≡ free_bytes self.now }
    {
        self.space().bytes
    }

    // The number of a text, if it is in the book.
    pub fn find(&self, text: &[u8]) -> Option<u32>
        ensures found { result ≡ found (texts self.now) text.now }
        ensures stands { MatchOption result (has (texts self.now) text.now ≡ false) (λ k. text_at (texts self.now) k ≡ Some text.now) }
    {
        // enumerated, since the place is the answer; `position` would ask of its closure that each entry lies in the bytes
        let entries = &self.entries[..self.count];
        for (i, entry) in entries.iter().enumerate() {
            if self.part(*entry) == text {
                return Some(i as u32 + 1);
            }
        }
        None
    }

    // The text of a number, if there is one.
    pub fn text(&self, number: u32) -> Option<&[u8]>
        ensures { MatchOption result (text_at (texts self.now) number ≡ None) (λ t. text_at (texts self.now) number ≡ Some t.now) }
    {
        let place = (number as usize).checked_sub(1)?;
        let entry = self.entries[..self.count].get(place)?;
        Some(self.part(*entry))
    }

    fn part(&self, entry: Entry) -> &[u8]
        requires { entry.start + entry.len ≤ length self.now.bytes.now }
        ensures { result.now ≡ part_of self.now.bytes.now entry }
    {
        &self.bytes[entry.start..entry.start + entry.len]
    }

    // The number that a text has or would get, if it can be entered.
    pub fn plan_one(&self, text: &[u8]) -> Result<u32, Refusal>
        ensures { result ≡ planned_one (shelf_of self.now) text.now }
    {
        match self.find(text) {
            Some(number) => Ok(number),
            None => self.space().next(text.len()),
        }
    }

    // The numbers of two texts, if the first and then the second can be entered.
    pub fn plan(&self, a: &[u8], b: &[u8]) -> Result<(u32, u32), Refusal>
        ensures { result ≡ planned (shelf_of self.now) a.now b.now }
    {
        let first = self.plan_one(a)?;
        let second = self.plan_second(a, first, b)?;
        Ok((first, second))
    }

    // The number of b once a, which gets the number `first`, is in the book.
    fn plan_second(&self, a: &[u8], first: u32, b: &[u8]) -> Result<u32, Refusal>
        requires { planned_one (shelf_of self.now) a.now ≡ Ok first }
        ensures { result ≡ planned_one (entered (shelf_of self.now) a.now) b.now }
    {
        if a == b {
            return Ok(first);
        }
        match self.find(b) {
            Some(number) => Ok(number),
            None => self.space_with(a, first).next(b.len()),
        }
    }

    fn space(&self) -> Space
        ensures { result ≡ space_of (shelf_of self.now) }
    {
        Space {
            count: self.count,
            entries: self.entries.len() - self.count,
            bytes: self.bytes.len() - self.used,
        }
    }

    // What is left once a text, which gets this number, is in the book.
    fn space_with(&self, text: &[u8], number: u32) -> Space
        requires { planned_one (shelf_of self.now) text.now ≡ Ok number }
        ensures { result ≡ space_of (entered (shelf_of self.now) text.now) }
    {
        let space = self.space();
        if number as usize > space.count {
            Space {
                count: space.count + 1,
                entries: space.entries - 1,
                bytes: space.bytes - text.len(),
            }
        } else {
            space
        }
    }

    // The word to be shown, a part of the book's memory or of the fixed words.
    pub fn word_from<'m>(&'m self, words: &'m [u8], which: Shown) -> Option<&'m [u8]>
        ensures { MatchOption result (shown_of (texts self.now) words.now which ≡ None) (λ t. shown_of (texts self.now) words.now which ≡ Some t.now) }
    {
        match which {
            Shown::BookText(number) => self.text(number),
            Shown::FixedWord { start, len } => fixed_word(words, start, len),
        }
    }

    // Gives a text its number; a new one is copied into the book.
    pub fn enter(&mut self, text: &[u8]) -> Result<u32, Refusal>
        ensures answer { result ≡ planned_one (shelf_of self.old) text.now }
        ensures after { MatchResult result (λ _. shelf_of self.new ≡ entered (shelf_of self.old) text.now) (λ _. self.new ≡ self.old) }
        ensures known { has (texts self.old) text.now ≡ true → self.new ≡ self.old }
    {
        let number = self.plan_one(text)?;
        if number as usize > self.count {
            self.add(text);
        }
        Ok(number)
    }

    // Writes a new text behind the others.
    fn add(&mut self, text: &[u8])
        requires new { has (texts self.old) text.now ≡ false }
        requires room { (self.old.count < length self.old.entries.now) × (self.old.count < most) × (self.old.used + length text.now ≤ length self.old.bytes.now) }
        ensures { shelf_of self.new ≡ added (shelf_of self.old) text.now }
    {
        let start = self.used;
        let len = text.len();
        put_text(self.bytes, start, text);
        self.entries[self.count] = Entry { start, len };
        self.used += len;
        self.count += 1;
    }
}

fn put_text(bytes: &mut [u8], at: usize, text: &[u8])
    requires { at + length text.now ≤ length bytes.old }
    ensures { bytes.new ≡ take at bytes.old ++ (text.now ++ drop (at + length text.now) bytes.old) }
{
    bytes[at..at + text.len()].copy_from_slice(text);
}

fn fixed_word(words: &[u8], start: usize, len: usize) -> Option<&[u8]>
    ensures { MatchOption result (part_in words.now start len ≡ None) (λ t. part_in words.now start len ≡ Some t.now) }
{
    words.get(start..)?.get(..len)
}
