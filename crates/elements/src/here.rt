// An element of a domain as the runs that are under way at it: at most four, by value.
ghost use Rattle.std.specs.Prelude.{◌≡◌, [], map, length, get_or, take};
ghost use Rattle.std.specs.Int.Signed.{lt_z};
ghost use Rattle.store.specs.Few.{one_more};
ghost use Rattle.store.specs.Element.{list_of};
ghost use Rattle.evaluator.specs.Steps.Scopes.{bindings_of};
ghost use Rattle.elements.specs.Held.{StepsUp, held, no-level, number_of, bound_at, bound};

use evaluator::steps::scope::{Binding, Scope};
use evaluator::steps::values::Bounds;
use store::Element;
use store::few::Few;

// A run under way: its index, the number at which it stands, its upper limit, and the position behind its entry.
#[derive(Clone, Copy)]
pub struct Level {
    pub name: usize,
    pub number: i64,
    pub upper: i64,
    pub behind: usize,
}

// The runs under way, the outermost first.
#[derive(Clone, Copy)]
pub struct Here {
    pub levels: Few<Level>,
}

impl Level {
    // The run of an entry, at its first number.
    pub fn of(b: Bounds, behind: usize) -> Self
        ensures { result ≡ record { name = b.number; number = b.limits.lower; upper = b.limits.upper; behind = behind } }
    {
        Level {
            name: b.number,
            number: b.limits.lower,
            upper: b.limits.upper,
            behind,
        }
    }

    // Is there a number behind this one?
    pub fn has_more(self) -> bool
        ensures { result ≡ lt_z self.number self.upper }
    {
        self.number < self.upper
    }

    // The run at its next number; the same where there is none.
    pub fn up(self) -> Self
        ensures { StepsUp self result }
    {
        if !self.has_more() {
            return self;
        }
        Level {
            number: self.number + 1,
            ..self
        }
    }

    // What it binds.
    pub fn binding(self) -> Binding
        ensures { result ≡ bound_at self }
    {
        Binding {
            name: self.name,
            at: self.number,
        }
    }

    pub fn none() -> Self
        ensures { result ≡ no-level }
    {
        Level {
            name: 0,
            number: 0,
            upper: 0,
            behind: 0,
        }
    }
}

impl Here {
    pub fn none() -> Self
        ensures { held result ≡ [] }
    {
        Here {
            levels: Few::none(Level::none()),
        }
    }

    pub fn length(self) -> usize
        ensures { result ≡ length (held self) }
    {
        self.levels.length()
    }

    // One run more, inside the others; the same where there are four.
    pub fn with(self, l: Level) -> Self
        ensures { held result ≡ one_more (held self) l }
    {
        Here {
            levels: self.levels.with(l),
        }
    }

    // The i-th run, counted from 0; zeros where there is none.
    pub fn at(self, i: usize) -> Level
        ensures { result ≡ get_or (held self) i no-level }
    {
        self.levels.at(i, Level::none())
    }

    // The n outermost runs.
    pub fn cut(self, n: usize) -> Self
        ensures { held result ≡ take n (held self) }
    {
        Here {
            levels: self.levels.cut(n),
        }
    }

    pub fn element(self) -> Element
        ensures { list_of result ≡ map number_of (held self) }
    {
        let [a, b, c, d] = self.levels.items;
        Element {
            numbers: Few {
                count: self.levels.count,
                items: [a.number, b.number, c.number, d.number],
            },
        }
    }

    // What is bound at the element.
    pub fn scope(self) -> Scope
        ensures { bindings_of result ≡ bound (held self) [] }
    {
        let [a, b, c, d] = self.levels.items;
        Scope {
            bound: Few {
                count: self.levels.count,
                items: [a.binding(), b.binding(), c.binding(), d.binding()],
            },
        }
    }
}
