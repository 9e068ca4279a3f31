// Where a text goes: one end counts it, one writes it. What cannot be shown has no text.
#![tactic(auto)]

ghost use Rattle.std.specs.Prelude.{◌≡◌, ◌+◌, ◌≤◌, [], ◌++◌, length, take, drop, Some, None, refl};
ghost use Rattle.std.proofs.Common.{◌∙◌};
ghost use Rattle.outs.specs.Texts.{Text, ◌+?◌, escaped_byte, escaped};
ghost use Rattle.outs.specs.Outs.{Filled, Counted};
ghost use Rattle.outs.specs.Adding.{filled_still, filled_join, counted_still, counted_join};
ghost use Rattle.outs.specs.Laws.{TextsComeBack, NumbersPlain};

use itoa::Integer;

// What texts are added to, one behind the other; neither call can fail.
pub trait Out {
    // this text was added
    ghost added: { Self → Text → Self → Type 0 };

    ghost still: { (s : Self) → added s (Some []) s };

    ghost join: { (a b c : Self) (x y : Text) → added a x b → added b y c → added a (x +? y) c };

    fn put(&mut self, text: &[u8])
        ensures { added self.old (Some text.now) self.new };

    // What should stand here cannot be shown.
    fn refuse(&mut self)
        ensures { added self.old None self.new };
}

// How many places are left, or none once a text was refused.
#[derive(Debug, Drop)]
pub struct Counter {
    pub left: Option<usize>,
}

impl Out for Counter {
    ghost added = { λ a x b. Counted a.left x b.left };

    ghost still = { λ s. counted_still s.left };

    ghost join = { λ a b c x y. counted_join a.left b.left c.left x y };

    fn put(&mut self, text: &[u8]) {
        self.left = self.left.and_then(|n| n.checked_sub(text.len()));
    }

    fn refuse(&mut self) {
        self.left = None;
    }
}

// A lent output, since the libraries have no heap, and where the next text goes. A text that finds no room is not written.
#[derive(Debug, Drop)]
pub struct Buffer<'a> {
    pub out: &'a mut [u8],
    pub at: usize,
}

impl<'a> Out for Buffer<'a> {
    ghost added = { λ a x b. (b.out.ghost_name ≡ a.out.ghost_name) × Filled a.out.now a.at x b.out.now b.at };

    ghost still = { λ s. (refl, filled_still s.out.now s.at) };

    ghost join = { λ a b c x y p q. (q.0 ∙ p.0, filled_join a.out.now b.out.now c.out.now a.at b.at c.at x y p.1 q.1) };

    fn put(&mut self, text: &[u8]) {
        let at = self.at;
        if let Some(end) = at.checked_add(text.len())
            && end <= self.out.len()
        {
            self.out[at..end].copy_from_slice(text);
            self.at = end;
        }
    }

    fn refuse(&mut self) {}
}

// A number, as `{}` prints it.
pub fn number<O: Out, I: Integer>(o: &mut O, n: I)
    ensures { O.added o.old (Some (I.text n)) o.new }
{
    o.put(itoa::Buffer::new().format(n).as_bytes());
}

fn escaped_byte<O: Out>(o: &mut O, b: u8)
    ensures { O.added o.old (Some (escaped_byte b)) o.new }
{
    if b == b'"' || b == b'\\' {
        o.put(&[b'\\', b]);
    } else {
        o.put(&[b]);
    }
}

// A text with its quotes and backslashes escaped.
pub fn escape<O: Out>(o: &mut O, text: &[u8])
    ensures { O.added o.old (Some (escaped text.now)) o.new }
{
    for b in text {
        escaped_byte(o, *b);
    }
}

// Texts and numbers are found again in what is written.
pub fn writing_stands()
    ensures texts { TextsComeBack }
    ensures numbers { NumbersPlain }
{}
