// At most four items of a type, by value: the subscripts of an element, the indices that are bound, the runs under way.
ghost use Rattle.std.specs.Prelude.{◌≡◌, [], length, get_or, take, set};
ghost use Rattle.store.specs.Few.{items_of, one_more};

// The first `count` of the items; those behind them are free places.
#[derive(Clone, Copy)]
pub struct Few<T> {
    pub count: usize,
    pub items: [T; 4],
}

impl<T: Copy> Few<T> {
    // No item; x stands in the free places.
    pub fn none(x: T) -> Self
        ensures { items_of result ≡ [] }
    {
        Few {
            count: 0,
            items: [x; 4],
        }
    }

    pub fn length(self) -> usize
        ensures { result ≡ length (items_of self) }
    {
        self.count.min(4)
    }

    // One item more; the same where there are four. Each place is named, so that the items can stay in registers.
    pub fn with(self, x: T) -> Self
        ensures { items_of result ≡ one_more (items_of self) x }
    {
        let [a, b, c, d] = self.items;
        match self.count {
            0 => Few {
                count: 1,
                items: [x, b, c, d],
            },
            1 => Few {
                count: 2,
                items: [a, x, c, d],
            },
            2 => Few {
                count: 3,
                items: [a, b, x, d],
            },
            3 => Few {
                count: 4,
                items: [a, b, c, x],
            },
            _ => self,
        }
    }

    // The item at a position, x where there is none.
    pub fn at(self, i: usize, x: T) -> T
        ensures { result ≡ get_or (items_of self) i x }
    {
        if self.length() <= i {
            return x;
        }
        self.items[i]
    }

    // Another item at a position; the same where there is none.
    pub fn set(mut self, i: usize, x: T) -> Self
        ensures { items_of result ≡ set (items_of self) i x }
    {
        if i < 4 {
            self.items[i] = x;
        }
        self
    }

    // The first n items.
    pub fn cut(mut self, n: usize) -> Self
        ensures { items_of result ≡ take n (items_of self) }
    {
        self.count = self.count.min(n);
        self
    }
}
