// The bound indices and their whole numbers: at most four, by value.
ghost use Rattle.std.specs.Prelude.{◌≡◌, ◌&&◌, [], ltb, length};
ghost use Rattle.rules.specs.Limits.{index_limit};
ghost use Rattle.language.specs.Scope.{bound_to};
ghost use Rattle.language.specs.Evaluation.{is_none};
ghost use Rattle.evaluator.specs.Steps.Scopes.{bindings_of, bound_more};

use store::few::Few;

// An index by its number, bound to a whole number.
#[derive(Clone, Copy)]
pub struct Binding {
    pub name: usize,
    pub at: i64,
}

// The bound indices; the last one was bound last.
#[derive(Clone, Copy)]
pub struct Scope {
    pub bound: Few<Binding>,
}

impl Scope {
    pub fn none() -> Self
        ensures { bindings_of result ≡ [] }
    {
        Scope {
            bound: Few::none(Binding { name: 0, at: 0 }),
        }
    }

    // One index more; the same where four are bound.
    pub fn bind(self, i: usize, k: i64) -> Self
        ensures { bindings_of result ≡ bound_more i k (bindings_of self) }
    {
        Scope {
            bound: self.bound.with(Binding { name: i, at: k }),
        }
    }

    // What the index is bound to. Each place is named, as in `Few::with`.
    pub fn bound_to(self, i: usize) -> Option<i64>
        ensures { result ≡ bound_to i (bindings_of self) }
    {
        let n = self.bound.count;
        if (3 < n) & (i == self.bound.items[3].name) {
            return Some(self.bound.items[3].at);
        }
        if (2 < n) & (i == self.bound.items[2].name) {
            return Some(self.bound.items[2].at);
        }
        if (1 < n) & (i == self.bound.items[1].name) {
            return Some(self.bound.items[1].at);
        }
        if (0 < n) & (i == self.bound.items[0].name) {
            return Some(self.bound.items[0].at);
        }
        None
    }

    // May the index be bound? It is not, and fewer than four are.
    pub fn takes(self, i: usize) -> bool
        ensures { result ≡ (is_none (bound_to i (bindings_of self)) && ltb (length (bindings_of self)) index_limit) }
    {
        match self.bound_to(i) {
            Some(_) => false,
            None => self.bound.length() < rules::INDEX_LIMIT,
        }
    }
}
