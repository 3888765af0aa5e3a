//! Blocks of numbers, some dozens of which lie side by side in memory.
ghost use Rattle.std.specs.Prelude.{◌≡◌, true, false, [], ◌∷◌, ◌++◌, ◌+◌, ◌<◌, ◌≤◌, length};
ghost use Rattle.std.specs.Option.{is_none, option_or};
ghost use Rattle.std.specs.List.Sorted.{IsSearchInRange};
ghost use Rattle.tsn_table.specs.Blocks.{Places, Puts, half, most_more, numbers_in, one_if};
ghost use Rattle.tsn_table.specs.Rising.{IsRising, first_from, put_number, without_number};

use arrayvec::ArrayVec;

/// How many numbers a block can have behind its least one.
pub(crate) const MORE: usize = 62;

// Half of that.
const HALF: usize = 31;

/// Some numbers, of which there is always one.
#[derive(Debug, Drop)]
pub(crate) struct Block {
    // those above the least one, in rising order
    more: ArrayVec<u64, MORE>,
    // behind them, since a way down a tree reads it with their count, which lies at their end
    least: u64,
}

/// What became of a number that was to be put into a block: it was there already, came in, or had no place.
#[derive(Clone, Copy)]
pub(crate) enum Put {
    There,
    Came,
    Full,
}

// Where a number stands among rising ones, or else where it would stand.
fn seek(numbers: &[u64], id: u64) -> Result<usize, usize>
    requires rising { IsRising numbers.now }
    ensures bound { IsSearchInRange result (length numbers.now) }
    ensures place { Places id numbers.now result }
{
    numbers.binary_search(&id)
}

/// The first of these rising numbers that is `from` or more, and else `above`.
pub(crate) fn first_among(numbers: &[u64], from: u64, above: Option<u64>) -> Option<u64>
    requires rising { IsRising numbers.now }
    ensures { result ≡ option_or (first_from from numbers.now) above }
{
    match seek(numbers, from) {
        Ok(_) => Some(from),
        Err(place) => match numbers.get(place) {
            Some(first) => Some(*first),
            None => above,
        },
    }
}

// Puts these numbers in the place of others.
fn fill(row: &mut ArrayVec<u64, MORE>, numbers: &[u64])
    requires fits { length numbers.now ≤ most_more }
    ensures { row.new.items ≡ numbers.now }
{
    row.clear();
    let _ = row.try_extend_from_slice(numbers);
}

impl Block {
    /// The block of one number.
    pub(crate) fn new(number: u64) -> Block
        ensures { numbers_in result ≡ number ∷ [] }
    {
        Block {
            least: number,
            more: ArrayVec::new(),
        }
    }

    /// A block of the same numbers.
    pub(crate) fn copy(&self) -> Block
        ensures { numbers_in result ≡ numbers_in self.now }
    {
        let mut copy = Block::new(self.least);
        fill(&mut copy.more, self.more.as_slice());
        copy
    }

    /// Makes it the block of one number.
    pub(crate) fn begin(&mut self, number: u64)
        ensures { numbers_in self.new ≡ number ∷ [] }
    {
        self.least = number;
        self.more.clear();
    }

    /// The least number.
    #[inline]
    pub(crate) fn least(&self) -> u64
        ensures { result ≡ self.now.least }
    {
        self.least
    }

    /// The numbers above the least one.
    #[inline]
    pub(crate) fn more(&self) -> &[u64]
        ensures { result.now ≡ self.now.more.items }
    {
        self.more.as_slice()
    }

    /// Whether the block has this number alone.
    #[inline]
    pub(crate) fn is_only(&self, id: u64) -> bool
        ensures only { result ≡ true → numbers_in self.now ≡ id ∷ [] }
        ensures alone { result ≡ true → length self.now.more.items ≡ 0 }
        ensures others { result ≡ false → self.now.least ≡ id → 0 < length self.now.more.items }
    {
        self.least == id && self.more.is_empty()
    }

    /// Whether all numbers of the block are below this one.
    #[inline]
    pub(crate) fn ends_below(&self, id: u64) -> bool
        requires rising { IsRising (numbers_in self.now) }
        ensures { result ≡ is_none (first_from id (numbers_in self.now)) }
    {
        match self.more.as_slice().last() {
            Some(last) => *last < id,
            None => self.least < id,
        }
    }

    /// Puts a number in, and tells what became of it. A full block stays as it is.
    pub(crate) fn put(&mut self, id: u64) -> Put
        requires rising { IsRising (numbers_in self.old) }
        ensures { Puts id self.old self.new result }
    {
        if id < self.least {
            return self.put_first(id);
        }
        if id == self.least {
            return Put::There;
        }
        match seek(self.more.as_slice(), id) {
            Ok(_) => Put::There,
            Err(place) => match self.more.try_insert(place, id) {
                Ok(()) => Put::Came,
                Err(_) => Put::Full,
            },
        }
    }

    // The same of a number below all others.
    fn put_first(&mut self, id: u64) -> Put
        requires rising { IsRising (numbers_in self.old) }
        requires less { id < self.old.least }
        ensures { Puts id self.old self.new result }
    {
        if self.more.try_insert(0, self.least).is_err() {
            return Put::Full;
        }
        self.least = id;
        Put::Came
    }

    /// Puts a number into a full block, whose upper half goes to another one, the numbers of which go.
    pub(crate) fn put_in_half(&mut self, id: u64, upper: &mut Block)
        requires rising { IsRising (numbers_in self.old) }
        requires full { length self.old.more.items ≡ most_more }
        ensures { numbers_in self.new ++ numbers_in upper.new ≡ put_number id (numbers_in self.old) }
    {
        self.divide(upper);
        if id < upper.least {
            self.put(id);
        } else {
            upper.put(id);
        }
    }

    // Moves the upper half of a full block to another, the numbers of which go.
    fn divide(&mut self, upper: &mut Block)
        requires full { length self.old.more.items ≡ most_more }
        ensures numbers { numbers_in self.old ≡ numbers_in self.new ++ numbers_in upper.new }
        ensures lower { length self.new.more.items ≡ half }
        ensures upper { length upper.new.more.items + 1 ≡ half }
    {
        let (_, behind) = self.more.as_slice().split_at(HALF);
        let [least, rest @ ..] = behind else {
            unreachable!();
        };
        upper.least = *least;
        fill(&mut upper.more, rest);
        self.more.truncate(HALF);
    }

    /// Whether the numbers of another block go into this one, too.
    pub(crate) fn has_place_for(&self, other: &Block) -> bool
        ensures some { result ≡ true → length self.now.more.items + length other.now.more.items < most_more }
        ensures none { result ≡ false → most_more ≤ length self.now.more.items + length other.now.more.items }
    {
        self.more.len() + other.more.len() < MORE
    }

    /// Takes in the numbers of another block behind its own ones.
    pub(crate) fn append(&mut self, other: &Block)
        requires few { length self.old.more.items + length other.now.more.items < most_more }
        ensures { numbers_in self.new ≡ numbers_in self.old ++ numbers_in other.now }
    {
        self.more.push(other.least);
        let _ = self.more.try_extend_from_slice(other.more.as_slice());
    }

    /// Takes a number out, where it is there and not the only one. It tells whether it was there.
    #[tactic(auto, using(crate::proofs::Blocks::least_goes, crate::proofs::Blocks::not_there))]
    pub(crate) fn take(&mut self, id: u64) -> bool
        requires rising { IsRising (numbers_in self.old) }
        requires others { self.old.least ≡ id → 0 < length self.old.more.items }
        ensures numbers { numbers_in self.new ≡ without_number id (numbers_in self.old) }
        ensures shorter { length (numbers_in self.old) ≡ length (numbers_in self.new) + one_if result }
    {
        if id == self.least {
            self.least = self.more.remove(0);
            return true;
        }
        if id < self.least {
            return false;
        }
        match seek(self.more.as_slice(), id) {
            Ok(place) => {
                self.more.remove(place);
                true
            }
            Err(_) => false,
        }
    }
}
