// The elements of a domain, one after the other: the first, and after each the next. A caller does its step between them.
// Of `cx` only the rows of data and the visible names count: a domain is read from nothing bound. The upper limits of the runs
// under way are kept with an element, so a limit is evaluated once for each run.
#![tactic(auto)]

ghost use Rattle.elements.specs.Steps.{FirstIs, NextIs, InsideIs, TurnsAre, AfterIs};
ghost use Rattle.evaluator.specs.Context.{Over};

use evaluator::Context;
use evaluator::steps::values;
use here::{Here, Level};
use rules::Refused;

pub mod here;
pub mod walk;

// The first element of a domain of `count` entries, the first of which stands at a position.
pub fn first(cx: &Context<'_>, count: usize, at: usize) -> Result<Option<Here>, Refused>
    ensures { Over FirstIs cx.now.stored cx.now.level count at result }
{
    inside(cx, count, at, Here::none())
}

// The element after an element. Where the innermost run has a number more, that is all that changes.
pub fn next(cx: &Context<'_>, here: Here) -> Result<Option<Here>, Refused>
    ensures { Over NextIs cx.now.stored cx.now.level here result }
{
    let n = here.length();
    if 0 < n {
        let l = here.at(n - 1);
        if l.has_more() {
            let outer = here.cut(n - 1);
            let on = outer.with(l.up());
            return Ok(Some(on));
        }
    }
    after(cx, 0, here)
}

// The first element of `count` entries from a position on, inside the runs of `outer`.
#[cycle(inside_turns)]
fn inside(cx: &Context<'_>, count: usize, at: usize, outer: Here) -> Result<Option<Here>, Refused>
    ensures { Over InsideIs cx.now.stored cx.now.level count at outer result }
{
    if count == 0 {
        return Ok(Some(outer));
    }
    let bound = Context {
        nest: rules::NESTING_LIMIT,
        scope: outer.scope(),
        ..*cx
    };
    let (entry, behind) = evaluator::entry(&bound, at)?;
    values::run(bound.scope, entry.limits, entry.number, entry.place)?;
    let run = Level::of(entry, behind);
    turns(cx, count - 1, outer, run)
}

// The first element at the numbers of a run, from the one on at which it stands; `count` entries are inside it.
#[cycle(inside_turns)]
fn turns(cx: &Context<'_>, count: usize, outer: Here, run: Level) -> Result<Option<Here>, Refused>
    ensures { Over TurnsAre cx.now.stored cx.now.level count outer run result }
{
    for number in run.number..=run.upper {
        let inner = outer.with(Level { number, ..run });
        let found = inside(cx, count, run.behind, inner)?;
        if found.is_some() {
            return Ok(found);
        }
    }
    Ok(None)
}

// What comes after an element inside its m outermost runs, which stay at their numbers.
fn after(cx: &Context<'_>, m: usize, here: Here) -> Result<Option<Here>, Refused>
    ensures { Over AfterIs cx.now.stored cx.now.level m here result }
{
    let n = here.length();
    if n <= m {
        return Ok(None);
    }
    let inner = after(cx, m + 1, here)?;
    if inner.is_some() {
        return Ok(inner);
    }
    let l = here.at(m);
    if !l.has_more() {
        return Ok(None);
    }
    turns(cx, n - m - 1, here.cut(m), l.up())
}
