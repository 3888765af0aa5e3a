//! A shared text and its fronts, over `logbook`.
ghost use Rattle.std.specs.Prelude.{◌≡◌, ◌<◌, ◌^◌, ◌++◌, ◌∷◌, [], IsTrue};
ghost use Rattle.tsn_history.specs.Rules.{head_of};
ghost use Rattle.tsn_history.specs.Texts.{BeginsWith};

use logbook::{Gain, Offer, Plain, Play, Rule, Seen, Start, Word};
use std::collections::LinkedList;
use std::marker::{Brand, Model, PhantomData};

/// A line of a text. No value of it is made.
pub type Line = LinkedList<u8>;

/// The rule of a text.
pub struct Law;

impl Rule<Line, u64> for Law {
    ghost use Rattle.std.specs.Prelude.{[]};
    ghost use base.Fml.{ftrue};
    ghost use Rattle.tsn_history.specs.Rules.{IsKept};

    ghost holds = { λ cells log. IsKept cells log };

    ghost first = { [] };

    ghost hinted = { λ n log. Unit {0} };

    ghost shows = { λ log. [] };

    ghost keeps = { λ names log. ftrue };

    ghost moves = { λ ask before after answer. Unit {0} };
}

/// Callers trade nothing.
pub struct Nothing;

impl Gain<Line, u64> for Nothing {
    ghost use base.Fml.{ftrue};

    ghost after = { λ names about answer. ftrue };
}

/// A step that adds a line.
pub struct Add;

impl Play<Line, u64> for Add {
    ghost use Rattle.tsn_history.specs.Rules.{Adds};

    ghost then = { Adds };
}

/// What a step asks for: that these bytes be a line.
impl<'a> Plain<&'a [u8], Line, u64> for Add {
    ghost use Rattle.std.specs.Prelude.{None};

    ghost ask = { λ line. line.now };

    ghost state = { λ line. None };
}

/// Which text it is. Each call of a program picks it.
pub trait Naming {
    ghost use Rattle.logbook.specs.Pages.{Book};

    ghost book: { Book };
}

impl Naming for Brand {
    ghost book = { record { number = 0; log_name = 0; cells_name = 0 } };
}

/// An empty text, which has no name yet.
#[derive(Drop)]
pub struct Opened {
    head: Word<Line, u64, Law>,
    seen: Seen<Line, u64, Law>,
    pub ghost empty: { seen.log ≡ [] },
    pub ghost head_is: { head ≡ head_of seen.book },
}

impl Opened {
    pub fn new() -> Opened {
        let (seen, mut first, _second) = Seen::open(Start::alone(), 0, 0);
        Opened {
            head: Word::tracked(0, &mut first),
            seen,
        }
    }

    /// The text's word under a name, and the front that has seen nothing.
    pub fn named<J: Naming>(self) -> (Book<J>, Front<J>)
        requires { self.seen.book ≡ J.book }
        ensures { result.1 ≡ [] }
    {
        let Opened { head, seen } = self;
        (
            Book {
                head,
                of: PhantomData,
            },
            Front {
                lines: 0,
                seen,
                of: PhantomData,
            },
        )
    }
}

/// The word that all threads share: how many lines the text has.
#[derive(Drop)]
pub struct Book<J: Naming> {
    head: Word<Line, u64, Law>,
    of: PhantomData<J>,
    ghost head_is: { head ≡ head_of J.book },
}

/// A beginning of the text that was seen. Contracts see it as its lines.
#[derive(Drop)]
pub struct Front<J: Naming> {
    lines: u64,
    seen: Seen<Line, u64, Law>,
    of: PhantomData<J>,
}

impl<J: Naming> Model for Front<J> {
    ghost use Rattle.std.specs.Prelude.{◌≡◌, List, ℕ, length};

    ghost Value = { List (List ℕ) };

    ghost view = { λ f. f.seen.log };

    ghost invariant = { λ f. (f.lines ≡ length f.seen.log) × (f.seen.book ≡ J.book) };
}

impl<J: Naming> Front<J> {
    /// A copy.
    pub fn again(&self) -> Front<J>
        ensures { result ≡ self.now }
    {
        Front {
            lines: self.lines,
            seen: self.seen.again(),
            of: PhantomData,
        }
    }

    /// Whether it has all lines of the other one. Then it begins with that.
    pub fn covers(&self, other: &Front<J>) -> bool
        ensures { IsTrue result → BeginsWith self.now other.now }
    {
        let mut both = self.seen.again();
        both.learn(&other.seen);
        if other.lines <= self.lines {
            true
        } else {
            false
        }
    }

    /// Whether it has as many lines as the other one. Then the two are one text.
    pub fn is(&self, other: &Front<J>) -> bool
        ensures { IsTrue result → self.now ≡ other.now }
    {
        let mut both = self.seen.again();
        both.learn(&other.seen);
        if other.lines == self.lines {
            true
        } else {
            false
        }
    }

    /// Adds a line to all that was seen, and says whether it did. It did not where the text was longer, or has 2^62
    /// lines.
    pub fn add(&mut self, book: &Book<J>, line: &[u8]) -> bool
        ensures { IsTrue result → self.new ≡ self.old ++ line.now ∷ [] }
    {
        if self.lines >= MOST {
            return false;
        }
        let mut offer: Offer<Line, u64, Law, Nothing> = self
            .seen
            .plain::<Nothing, &[u8], Add>(&line);
        let mut pen = self.seen.no_pen();
        let lines = self.lines;
        let found = book
            .head
            .compare_exchange::<Add, Nothing>(
                lines,
                lines + 1,
                &mut self.seen,
                &mut offer,
                &mut pen,
            );
        if found == lines {
            self.lines = lines + 1;
            true
        } else {
            self.lines = found;
            false
        }
    }
}

// From so many lines on none is added.
const MOST: u64 = 1 << 62;
