// What codes, labels, displays and book numbers are shown as.
#![tactic(auto)]

ghost use Rattle.std.specs.Prelude.{◌≡◌, Some, None};
ghost use Rattle.names.specs.declared.book.Shown.TheVariants.{FixedWord};
ghost use Rattle.names.specs.Book.{texts, shown_of};
ghost use Rattle.outs.specs.Texts.{shown};
ghost use Rattle.words.specs.Words.{words, label_word, word_part, category_part, category_text, pattern_part, operand_text, label_text, display_text, phase_text, flag_text};
ghost use Rattle.words.specs.Laws.{WordsShown};

use itoa::Integer;
use names::{NameBook, Shown};
use outs::Out;
use trace::{Category, LabelKind, PatternKind, Phase, Word};

// All fixed words: by a rule of the project each one shown is a part of this slice, which the book's word_from picks.
const WORDS: &[u8] =
    b"nextest run (process_sort_indexthread_sort_indexprocess_namethread_namestress sub-runssetup-scriptsconcurrencytest resultsretryslowcancelpausedcontinuedscript-testsslot-";

// A part of the fixed words.
fn fixed(start: usize, len: usize) -> Shown
    ensures { result ≡ FixedWord start len }
{
    Shown::FixedWord { start, len }
}

// The part that a label's word is.
fn word_part(word: Word) -> Shown
    ensures { result ≡ word_part word }
{
    match word {
        Word::TestRun => fixed(3, 8),
        Word::SubRun => fixed(78, 7),
        Word::Concurrency => fixed(99, 11),
        Word::TestResults => fixed(110, 12),
        Word::Retry => fixed(122, 5),
        Word::Slow => fixed(127, 4),
        Word::Cancel => fixed(131, 6),
        Word::Paused => fixed(137, 6),
        Word::Continued => fixed(143, 9),
        Word::ProcessName => fixed(48, 12),
        Word::ProcessSortIndex => fixed(13, 18),
        Word::ThreadName => fixed(60, 11),
        Word::ThreadSortIndex => fixed(31, 17),
    }
}

fn category_part(category: Category) -> Shown
    ensures { result ≡ category_part category }
{
    match category {
        Category::Test => fixed(3, 4),
        Category::SetupScript => fixed(86, 12),
        Category::Stress => fixed(71, 6),
        Category::Run => fixed(8, 3),
        Category::Empty => fixed(0, 0),
    }
}

// What a display begins with.
fn pattern_part(kind: PatternKind) -> Shown
    ensures { result ≡ pattern_part kind }
{
    match kind {
        PatternKind::NextestRun => fixed(0, 11),
        PatternKind::NextestRunOf => fixed(0, 13),
        PatternKind::RunLane => fixed(8, 3),
        PatternKind::SubRuns => fixed(71, 15),
        PatternKind::SetupScripts => fixed(86, 13),
        PatternKind::ScriptNumber => fixed(152, 7),
        PatternKind::Tests => fixed(159, 5),
        PatternKind::BookText => fixed(0, 0),
        PatternKind::SlotNumber => fixed(164, 5),
    }
}

// A lent output, and the book whose texts are shown there.
#[derive(Drop)]
pub struct Writer<'w, O> {
    pub out: &'w mut O,
    pub book: &'w NameBook<'w>,
}

impl<'w, O: Out> Writer<'w, O> {
    ghost use Rattle.words.specs.Writing.{Adds};

    pub fn put(&mut self, text: &[u8])
        ensures { Adds O.Out self.old (λ _. Some text.now) self.new }
    {
        self.out.put(text);
    }

    // What should stand here cannot be shown.
    pub fn refuse(&mut self)
        ensures { Adds O.Out self.old (λ _. None) self.new }
    {
        self.out.refuse();
    }

    pub fn number<I: Integer>(&mut self, n: I)
        ensures { Adds O.Out self.old (λ _. Some (I.text n)) self.new }
    {
        outs::number(self.out, n);
    }

    // A word, escaped: a text of the book or a part of the fixed words.
    fn show(&mut self, which: Shown)
        ensures { Adds O.Out self.old (λ _. shown (shown_of (texts self.old.book.now) words which)) self.new }
    {
        match self.book.word_from(WORDS, which) {
            Some(word) => outs::escape(self.out, word),
            None => self.out.refuse(),
        }
    }

    // How a book number is shown: every text of the output comes from here.
    pub fn text(&mut self, n: u64)
        ensures { Adds O.Out self.old (λ show. show n) self.new }
    {
        match u32::try_from(n) {
            Ok(number) => self.show(Shown::BookText(number)),
            Err(_) => self.refuse(),
        }
    }

    // The fixed word of a label. One method for it and for `category` would need a trait that tells the part of each enum.
    fn word(&mut self, code: u64)
        ensures { Adds O.Out self.old (λ _. label_word code) self.new }
    {
        match Word::try_from(code) {
            Ok(word) => self.show(word_part(word)),
            Err(_) => self.refuse(),
        }
    }

    pub fn category(&mut self, code: u64)
        ensures { Adds O.Out self.old (λ _. category_text code) self.new }
    {
        match Category::try_from(code) {
            Ok(category) => self.show(category_part(category)),
            Err(_) => self.refuse(),
        }
    }

    // What a process or a lane is called.
    pub fn display(&mut self, code: u64, n: u64)
        ensures { Adds O.Out self.old (λ show. display_text show code n) self.new }
    {
        match PatternKind::try_from(code) {
            Ok(kind) => {
                self.show(pattern_part(kind));
                self.operand(kind, n);
            }
            Err(_) => self.refuse(),
        }
    }

    // What follows in a display.
    fn operand(&mut self, kind: PatternKind, n: u64)
        ensures { Adds O.Out self.old (λ show. operand_text show kind n) self.new }
    {
        match kind {
            PatternKind::NextestRunOf => {
                self.text(n);
                self.put(b")");
            }
            PatternKind::BookText => self.text(n),
            PatternKind::ScriptNumber | PatternKind::SlotNumber => self.number(n),
            _ => {}
        }
    }

    pub fn label(&mut self, kind: u64, first: u64, second: u64)
        ensures { Adds O.Out self.old (λ show. label_text show kind first second) self.new }
    {
        match LabelKind::try_from(kind) {
            Ok(LabelKind::Fixed) => self.word(first),
            Ok(LabelKind::Text) => self.text(first),
            Ok(LabelKind::TwoTexts) => {
                self.text(first);
                self.put(b" ");
                self.text(second);
            }
            Err(_) => self.refuse(),
        }
    }

    pub fn phase_letter(&mut self, letter: u8)
        ensures { Adds O.Out self.old (λ _. phase_text letter) self.new }
    {
        phase_letter(self.out, letter);
    }

    pub fn flag(&mut self, n: u64)
        ensures { Adds O.Out self.old (λ _. flag_text n) self.new }
    {
        flag(self.out, n);
    }
}

// The letter of a phase: it needs no book.
pub fn phase_letter<O: Out>(o: &mut O, letter: u8)
    ensures { O.added o.old (phase_text letter) o.new }
{
    match Phase::try_from(letter) {
        Ok(_) => o.put(&[letter]),
        Err(_) => o.refuse(),
    }
}

// By the table of codes a flag is the number 0 or 1, and no enum.
pub fn flag<O: Out>(o: &mut O, n: u64)
    ensures { O.added o.old (flag_text n) o.new }
{
    match n {
        0 => o.put(b"false"),
        1 => o.put(b"true"),
        _ => o.refuse(),
    }
}

// What is shown is what the codes stand for.
pub fn words_stand()
    ensures { WordsShown }
{}
