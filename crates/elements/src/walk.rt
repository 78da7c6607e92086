// The elements of a domain as an iterator: each in its turn, and a refusal ends them. The next one is looked for when it is asked
// for, so that a caller that stops at an element pays for none behind it.
ghost use Rattle.std.specs.Prelude.{◌≡◌, false};
ghost use Rattle.elements.specs.Steps.{FirstIs};
ghost use Rattle.elements.specs.Walk.{Comes};
ghost use Rattle.evaluator.specs.Context.{Over};

use crate::here::Here;
use evaluator::Context;
use rules::Refused;

// What is read, the element at which the walk stands, and whether it was handed out.
#[derive(Clone, Copy)]
pub struct Walk<'a> {
    pub cx: Context<'a>,
    pub step: Result<Option<Here>, Refused>,
    pub given: bool,
}

impl<'a> Walk<'a> {
    // The elements of a domain of `count` entries, the first of which stands at a position.
    pub fn new(cx: Context<'a>, count: usize, at: usize) -> Self
        ensures same { result.cx ≡ cx.entry }
        ensures first { Over FirstIs cx.entry.stored cx.entry.level count at result.step }
        ensures fresh { result.given ≡ false }
    {
        let step = crate::first(&cx, count, at);
        Walk {
            cx,
            step,
            given: false,
        }
    }

    // The element to come: where the walk stands, or behind the element that was handed out.
    fn ahead(&self) -> Result<Option<Here>, Refused>
        ensures { Comes self.now.cx self.now.given self.now.step result }
    {
        if !self.given {
            return self.step;
        }
        match self.step {
            Ok(Some(h)) => crate::next(&self.cx, h),
            _ => Ok(None),
        }
    }
}

impl<'a> Iterator for Walk<'a> {
    ghost use Rattle.std.specs.Iterator.{at_most};
    ghost use Rattle.elements.specs.Walk.{Gives, items_left};

    type Item = Result<Here, Refused>;

    ghost next_gives = { Gives };

    ghost remaining = { λ s. at_most (items_left s.given s.step) };

    fn next(&mut self) -> Option<Result<Here, Refused>> {
        self.step = self.ahead();
        self.given = true;
        self.step.transpose()
    }
}
