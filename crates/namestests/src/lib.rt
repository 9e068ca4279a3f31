// The name book on examples: nothing to write on, one entry, exactly full, one more, and many.
#![tactic(auto)]

ghost use Rattle.std.specs.Prelude.{◌≡◌, MatchResult};
ghost use Rattle.names.specs.Book.{shelf_of};
ghost use Rattle.names.specs.Shelf.{entered, planned};

use names::NameBook;
use refusal::Refusal;

// Whether a text has this number in the book, and stands at it.
pub fn stands(book: &NameBook, text: &[u8], number: u32) -> bool {
    book.find(text) == Some(number) && book.text(number) == Some(text)
}

// Whether a book has so many texts, free entries and free bytes.
pub fn holds(book: &NameBook, count: usize, entries: usize, bytes: usize) -> bool {
    book.count() == count && book.free_entries() == entries && book.free_bytes() == bytes
}

// Enters both texts or neither: after the plan no entering fails, as the book's contracts tell.
pub fn enter_both(book: &mut NameBook, a: &[u8], b: &[u8]) -> Result<(u32, u32), Refusal>
    ensures answer { result ≡ planned (shelf_of book.old) a.now b.now }
    ensures after { MatchResult result (λ _. shelf_of book.new ≡ entered (entered (shelf_of book.old) a.now) b.now) (λ _. book.new ≡ book.old) }
{
    let numbers = book.plan(a, b)?;
    let _ = book.enter(a);
    let _ = book.enter(b);
    Ok(numbers)
}

// Enters the numbers below `count` as texts of four bytes, and says whether each got the next number.
pub fn enter_many(book: &mut NameBook, count: u32) -> bool {
    (0..count).all(|i| book.enter(&i.to_le_bytes()) == Ok(i + 1))
}

#[cfg(test)]
mod tests {
    use super::*;
    use names::{Entry, Shown};

    // Whether what was asked is refused because the book is full, which is refusal 11.
    fn is_full<T: Drop>(answer: Result<T, Refusal>) -> bool {
        match answer {
            Ok(_) => false,
            Err(refusal) => refusal.number() == 11,
        }
    }

    fn takes_nothing(book: &mut NameBook) -> bool {
        is_full(book.enter(b"a"))
            && is_full(book.enter(b""))
            && is_full(book.plan(b"a", b"a"))
            && book.find(b"a").is_none()
            && holds(book, 0, 0, 8)
    }

    #[test]
    fn no_entries(rt: HostRuntime) {
        let mut entries: [Entry; 0] = [];
        let mut bytes = [0u8; 8];
        assert!(rt; takes_nothing(&mut NameBook::over(&mut entries, &mut bytes)));
    }

    fn takes_empty(book: &mut NameBook) -> bool {
        is_full(book.enter(b"a"))
            && book.enter(b"") == Ok(1)
            && book.enter(b"") == Ok(1)
            && stands(book, b"", 1)
            && holds(book, 1, 1, 0)
    }

    #[test]
    fn no_bytes(rt: HostRuntime) {
        let mut entries = [Entry::BLANK; 2];
        let mut bytes: [u8; 0] = [];
        assert!(rt; takes_empty(&mut NameBook::over(&mut entries, &mut bytes)));
    }

    fn takes_one(book: &mut NameBook) -> bool {
        book.enter(b"run") == Ok(1)
            && is_full(book.enter(b"b"))
            && book.enter(b"run") == Ok(1)
            && stands(book, b"run", 1)
            && holds(book, 1, 0, 5)
            && book.plan(b"run", b"run") == Ok((1, 1))
            && is_full(book.plan(b"run", b"b"))
    }

    #[test]
    fn one_entry(rt: HostRuntime) {
        let mut entries = [Entry::BLANK; 1];
        let mut bytes = [0u8; 8];
        assert!(rt; takes_one(&mut NameBook::over(&mut entries, &mut bytes)));
    }

    fn takes_three(book: &mut NameBook) -> bool {
        book.enter(b"ab") == Ok(1)
            && book.enter(b"abc") == Ok(2)
            && is_full(book.enter(b"xyz"))
            && holds(book, 2, 1, 2)
            && book.enter(b"bc") == Ok(3)
            && holds(book, 3, 0, 0)
            && is_full(book.enter(b""))
            && book.enter(b"abc") == Ok(2)
            && stands(book, b"ab", 1)
            && stands(book, b"abc", 2)
            && stands(book, b"bc", 3)
            && holds(book, 3, 0, 0)
    }

    #[test]
    fn exactly_full(rt: HostRuntime) {
        let mut entries = [Entry::BLANK; 3];
        let mut bytes = [0u8; 7];
        assert!(rt; takes_three(&mut NameBook::over(&mut entries, &mut bytes)));
    }

    fn reads_one(book: &mut NameBook) -> bool {
        book.enter(b"a") == Ok(1)
            && book.text(0).is_none()
            && book.text(2).is_none()
            && book.text(4294967295).is_none()
    }

    #[test]
    fn unknown_numbers(rt: HostRuntime) {
        let mut entries = [Entry::BLANK; 2];
        let mut bytes = [0u8; 8];
        assert!(rt; reads_one(&mut NameBook::over(&mut entries, &mut bytes)));
    }

    fn takes_long(book: &mut NameBook) -> bool {
        book.enter(&[7u8; 255]) == Ok(1)
            && book.enter(&[7u8; 256]) == Ok(2)
            && is_full(book.enter(&[7u8; 301]))
            && book.enter(&[7u8; 300]) == Ok(3)
            && stands(book, &[7u8; 255], 1)
            && stands(book, &[7u8; 300], 3)
            && holds(book, 3, 0, 0)
    }

    #[test]
    fn long_texts(rt: HostRuntime) {
        let mut entries = [Entry::BLANK; 3];
        let mut bytes = [0u8; 811];
        assert!(rt; takes_long(&mut NameBook::over(&mut entries, &mut bytes)));
    }

    fn plans_two(book: &mut NameBook) -> bool {
        book.plan(b"ab", b"ab") == Ok((1, 1))
            && book.plan(b"ab", b"cd") == Ok((1, 2))
            && is_full(book.plan(b"ab", b"cde"))
            && is_full(book.plan(b"abcde", b"a"))
            && book.plan_one(b"abcd") == Ok(1)
            && is_full(book.plan_one(b"abcde"))
            && holds(book, 0, 2, 4)
            && book.enter(b"ab") == Ok(1)
            && book.plan(b"cd", b"ab") == Ok((2, 1))
            && book.plan(b"ab", b"cd") == Ok((1, 2))
            && is_full(enter_both(book, b"cd", b""))
            && holds(book, 1, 1, 2)
            && enter_both(book, b"cd", b"ab") == Ok((2, 1))
    }

    #[test]
    fn plans(rt: HostRuntime) {
        let mut entries = [Entry::BLANK; 2];
        let mut bytes = [0u8; 4];
        assert!(rt; plans_two(&mut NameBook::over(&mut entries, &mut bytes)));
    }

    fn shows_words(book: &mut NameBook) -> bool {
        let words = b"runstress";
        book.enter(b"a\"b") == Ok(1)
            && book.word_from(words, Shown::BookText(1)) == Some(b"a\"b".as_slice())
            && book.word_from(words, Shown::FixedWord { start: 3, len: 6 })
                == Some(b"stress".as_slice())
            && book.word_from(words, Shown::FixedWord { start: 9, len: 0 }) == Some(b"".as_slice())
            && book
                .word_from(words, Shown::FixedWord { start: 4, len: 6 })
                .is_none()
            && book
                .word_from(words, Shown::FixedWord { start: 10, len: 0 })
                .is_none()
            && book.word_from(words, Shown::BookText(2)).is_none()
    }

    #[test]
    fn shown_words(rt: HostRuntime) {
        let mut entries = [Entry::BLANK; 2];
        let mut bytes = [0u8; 8];
        assert!(rt; shows_words(&mut NameBook::over(&mut entries, &mut bytes)));
    }

    fn takes_most(book: &mut NameBook) -> bool {
        enter_many(book, 65535)
            && is_full(book.enter(b"one more"))
            && holds(book, 65535, 1, 4)
            && stands(book, &[0u8; 4], 1)
            && is_full(book.plan(&[0u8; 4], b""))
    }

    #[test]
    fn most_texts(rt: HostRuntime) {
        let mut entries = [Entry::BLANK; 65536];
        let mut bytes = [0u8; 262144];
        assert!(rt; takes_most(&mut NameBook::over(&mut entries, &mut bytes)));
    }
}
