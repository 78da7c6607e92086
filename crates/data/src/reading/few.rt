// At most four numbers by value: marks, an order, positions.
ghost use Rattle.std.specs.Prelude.{◌≡◌, [], length, get_or, drop};
ghost use Rattle.language.specs.Declarations.{is_in};
ghost use Rattle.language.specs.Data.{no_repeats, all_in};
ghost use Rattle.data.specs.Reading.Few.{numbers_of, Holds, Adds, rearranges_kept};

// The first `count` of the numbers. A count above four says that there are more, which are not kept: `store::few::Few` doesn't say that.
#[derive(Clone, Copy)]
pub struct Few {
    pub count: usize,
    pub numbers: [usize; 4],
}

impl Few {
    pub fn none() -> Self
        ensures { Holds result [] }
    {
        Few {
            count: 0,
            numbers: [0; 4],
        }
    }

    // One number more.
    pub fn with(mut self, i: usize) -> Self
        ensures { Adds self i result }
    {
        let n = self.count;
        if 4 <= n {
            self.count = 5;
            return self;
        }
        self.numbers[n] = i;
        self.count = n + 1;
        self
    }

    // How many are kept.
    pub fn length(self) -> usize
        ensures { result ≡ length (numbers_of self) }
    {
        self.count.min(4)
    }

    // The number at a position, 0 where there is none.
    pub fn at(self, i: usize) -> usize
        ensures { result ≡ get_or (numbers_of self) i 0 }
    {
        if self.length() <= i {
            return 0;
        }
        self.numbers[i]
    }

    // Is x among the numbers from position `from` on?
    fn has(self, from: usize, x: usize) -> bool
        ensures { result ≡ is_in x (drop from (numbers_of self)) }
    {
        for k in from..self.length() {
            if x == self.at(k) {
                return true;
            }
        }
        false
    }

    // Is no number there twice?
    pub fn no_repeats(self) -> bool
        ensures { result ≡ no_repeats (numbers_of self) }
    {
        for k in 0..self.length() {
            if self.has(k + 1, self.at(k)) {
                return false;
            }
        }
        true
    }

    // Is each number among the others?
    fn all_in(self, others: Few) -> bool
        ensures { result ≡ all_in (numbers_of self) (numbers_of others) }
    {
        for k in 0..self.length() {
            if !others.has(0, self.at(k)) {
                return false;
            }
        }
        true
    }

    // Is this a rearrangement of the marks?
    pub fn rearranges(self, marks: Few) -> bool
        ensures { result ≡ rearranges_kept self marks }
    {
        if self.count != marks.count {
            return false;
        }
        if !self.no_repeats() {
            return false;
        }
        self.all_in(marks)
    }
}
