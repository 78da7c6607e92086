// The positions of a portion that run, each with its own declared limits.
ghost use Rattle.std.specs.Prelude.{◌≡◌, ◌<◌};
ghost use Rattle.language.specs.Data.{bound_of};
ghost use Rattle.language.specs.Store.{element_of};
ghost use Rattle.data.specs.Reading.Entries.{entries_of};
ghost use Rattle.store.specs.Element.{list_of};
ghost use Rattle.data.specs.Running.{Before, PositionRuns};
ghost use Rattle.data.specs.Carrying.{RunsTo, EachTo};
ghost use Rattle.evaluator.specs.Context.{Over};

use super::layouts::Layout;
use super::reading::entries::{Entries, Entry};
use super::reading::few::Few;
use evaluator::steps::scope::Scope;
use evaluator::steps::values;
use evaluator::steps::values::Limits;
use evaluator::{Context, Stored};
use rules::Refused;
use store::{Element, Row};

// A portion: its name's number and place, whether it is an integer, its declared domain, and the positions that run, the
// outermost first.
#[derive(Clone, Copy)]
pub struct Portion {
    pub name: usize,
    pub place: u64,
    pub whole: bool,
    pub start: usize,
    pub layout: Layout,
    pub order: Few,
}

// The element, once all positions are bound.
fn element(bound: Entries) -> Element
    ensures { list_of result ≡ element_of (bound_of (entries_of bound)) }
{
    let mut e = Element::none();
    for k in 0..bound.length() {
        let Entry::Fixed(z) = bound.at(k) else {
            e = e.with(0);
            continue;
        };
        e = e.with(z);
    }
    e
}

// The indices of the positions before j that are bound by now.
fn scope_before(bound: Entries, indices: Few, j: usize) -> Scope
    ensures { Before bound indices j result }
{
    let mut sc = Scope::none();
    for k in 0..j {
        let Entry::Fixed(z) = bound.at(k) else {
            continue;
        };
        sc = sc.bind(indices.at(k), z);
    }
    sc
}

// The run of position j: its own declared limits, which see the earlier positions that are bound by now.
fn position_run(
    stored: Stored<'_>,
    x: Portion,
    bound: Entries,
    j: usize,
) -> Result<(Limits, usize), Refused>
    ensures { Over PositionRuns stored.entry x bound j result }
{
    let layout = x.layout;
    let starts = layout.starts;
    if starts.length() <= j {
        return Ok((Limits { lower: 1, upper: 0 }, 0));
    }
    let scope = scope_before(bound, layout.indices, j);
    let cx = Context {
        stored,
        level: x.name,
        nest: rules::NESTING_LIMIT,
        scope,
    };
    let (bounds, _) = evaluator::entry(&cx, starts.at(j))?;
    let n = values::run(scope, bounds.limits, bounds.number, bounds.place)?;
    Ok((bounds.limits, n))
}

// The positions from the k-th of the order on run; each run takes one number.
#[cycle(each_runs)]
pub fn runs(
    names: &[u64],
    tokens: &[u64],
    table: &mut [Row; 2048],
    given: usize,
    at: usize,
    x: Portion,
    k: usize,
    bound: Entries,
) -> Result<(usize, usize), Refused>
    ensures { RunsTo names.now tokens.now table.old given at x k bound result table.new }
{
    let order = x.order;
    if order.length() <= k {
        let e = element(bound);
        return super::entering::take(names, tokens, table, given, at, x, e);
    }
    tokens::token_at(tokens, at)?;
    let stored = Stored {
        names,
        tokens,
        table,
        given,
    };
    let (l, n) = position_run(stored, x, bound, order.at(k))?;
    each(names, tokens, table, given, at, x, k, bound, l, n)
}

// The later positions for each of the n numbers of the run of the k-th position.
#[cycle(each_runs)]
fn each(
    names: &[u64],
    tokens: &[u64],
    table: &mut [Row; 2048],
    given: usize,
    at: usize,
    x: Portion,
    k: usize,
    bound: Entries,
    l: Limits,
    n: usize,
) -> Result<(usize, usize), Refused>
    requires { k < 4 }
    ensures { EachTo names.now tokens.now table.old given at x k bound l n result table.new }
{
    let order = x.order;
    let j = order.at(k);
    let mut a = at;
    let mut count = given;
    for i in 0..n {
        let z = values::nth_number(l, i);
        let inner = bound.fix(j, z);
        let (next, more) = runs(names, tokens, table, count, a, x, k + 1, inner)?;
        a = next;
        count = more;
    }
    Ok((a, count))
}
