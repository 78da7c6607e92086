// The entries of a portion by value; and, while it runs, what each position is bound to.
ghost use Rattle.std.specs.Prelude.{◌≡◌, [], length, get_or};
ghost use Rattle.language.specs.Data.{marked, marks_of, position_of, positions_of, bound_of};
ghost use Rattle.language.specs.Store.{set_at};
ghost use Rattle.data.specs.Reading.Few.{numbers_of, Holds};
ghost use Rattle.store.specs.Few.{one_more};
ghost use Rattle.data.specs.Reading.Entries.{entry_of, entries_of, marks_index};

use super::few::Few;
use store::few;

// A fixed whole number, or the number of the index name that marks the position.
#[derive(Clone, Copy)]
pub enum Entry {
    Fixed(i64),
    Marked(usize),
}

#[derive(Clone, Copy)]
pub struct Entries {
    pub entries: few::Few<Entry>,
}

// Does the entry mark its position by the index i?
fn marks_index(e: Entry, i: usize) -> bool
    ensures { result ≡ marks_index i (entry_of e) }
{
    match e {
        Entry::Fixed(_) => false,
        Entry::Marked(j) => i == j,
    }
}

impl Entries {
    pub fn none() -> Self
        ensures { entries_of result ≡ [] }
    {
        Entries {
            entries: few::Few::none(Entry::Marked(0)),
        }
    }

    pub fn length(self) -> usize
        ensures { result ≡ length (entries_of self) }
    {
        self.entries.length()
    }

    // The entry at a position.
    pub fn at(self, i: usize) -> Entry
        ensures { entry_of result ≡ get_or (entries_of self) i (marked 0) }
    {
        self.entries.at(i, Entry::Marked(0))
    }

    // One entry more; the same where there are four.
    pub fn with(self, e: Entry) -> Self
        ensures { entries_of result ≡ one_more (entries_of self) (entry_of e) }
    {
        Entries {
            entries: self.entries.with(e),
        }
    }

    // A position bound to a number.
    pub fn fix(self, j: usize, k: i64) -> Self
        ensures { bound_of (entries_of result) ≡ set_at j k (bound_of (entries_of self)) }
    {
        Entries {
            entries: self.entries.set(j, Entry::Fixed(k)),
        }
    }

    // The index names of the marked positions, left to right.
    pub fn marks(self) -> Few
        ensures { Holds result (marks_of (entries_of self)) }
    {
        let mut marks = Few::none();
        for k in 0..self.length() {
            let Entry::Marked(i) = self.at(k) else {
                continue;
            };
            marks = marks.with(i);
        }
        marks
    }

    // The position that an index marks; how many there are where it marks none.
    fn position(self, i: usize) -> usize
        ensures { result ≡ position_of i (entries_of self) 0 }
    {
        let n = self.length();
        for k in 0..n {
            if marks_index(self.at(k), i) {
                return k;
            }
        }
        n
    }

    // The positions that the indices of an order mark.
    pub fn positions(self, order: Few) -> Few
        ensures { Holds result (positions_of (numbers_of order) (entries_of self)) }
    {
        let mut positions = Few::none();
        for k in 0..order.length() {
            positions = positions.with(self.position(order.at(k)));
        }
        positions
    }
}
