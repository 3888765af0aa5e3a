//! Guesses at which place among a table's rows that of a number lies.
//!
//! Nothing is promised of a guess. Whoever uses one looks whose row lies there, and hashes the number where it is
//! another's, so that a wrong guess costs time and nothing else.
use indexmap::IndexMap;
use std::alloc::Global;

/// The numbers below this one may have a guess.
const MOST: usize = 65_536;

/// How many guesses may be wanted for each row, beside those of a small table. They are made up to a power of two.
const FOR_EACH_ROW: usize = 8;

/// How many guesses may be wanted in a table of few rows.
const OF_FEW: usize = 512;

/// A place for each number below their count.
#[derive(Debug, Drop)]
pub(crate) struct Hints {
    places: Vec<u32>,
    // how many of them would serve all rows that came in
    wanted: usize,
}

impl Hints {
    /// No guess. It takes no memory.
    pub(crate) fn new(alloc: Global) -> Hints {
        Hints {
            places: Vec::new(alloc),
            wanted: 0,
        }
    }

    /// Where the row of the number may lie.
    #[inline(always)]
    pub(crate) fn guess(&self, number: u64) -> usize {
        match self.places.get(number as usize) {
            Some(place) => *place as usize,
            None => usize::MAX,
        }
    }

    /// Notes where the row of the number lies, where it may have a guess.
    #[inline(always)]
    pub(crate) fn note(&mut self, number: u64, place: usize) {
        match self.places.get_mut(number as usize) {
            Some(kept) => *kept = (place & 0xFFFF_FFFF) as u32,
            None => self.want(number),
        }
    }

    // Wants guesses up to the number.
    fn want(&mut self, number: u64) {
        if number < MOST as u64 {
            self.wanted = self.wanted.max(number as usize + 1);
        }
    }

    /// Whether more guesses are wanted than there are.
    #[inline(always)]
    pub(crate) fn are_wanted(&self) -> bool {
        self.places.len() < self.wanted
    }

    /// Makes as many as are wanted, unless the rows are too few for them, or memory is wanting. There are twice as many
    /// as before at least, so all rows are noted anew seldom.
    #[inline(never)]
    pub(crate) fn make<R>(&mut self, rows: &IndexMap<u64, R>) {
        if self.wanted > OF_FEW && self.wanted / FOR_EACH_ROW > rows.len() {
            return;
        }
        let count = self.wanted.min(MOST).next_power_of_two();
        if self.places.resize_with(count, || 0).is_ok() {
            self.note_all(rows);
        }
    }

    fn note_all<R>(&mut self, rows: &IndexMap<u64, R>) {
        for (place, number) in rows.keys().enumerate() {
            self.note(*number, place);
        }
    }
}
