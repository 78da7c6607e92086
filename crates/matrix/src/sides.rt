// One element of a constraint, and the objective: a bound, or a row of counts in a part that is lent. `table` holds the data,
// `variables` and `total`: the table of variables and its rows.
ghost use Rattle.std.specs.Prelude.{map};
ghost use Rattle.language.specs.Numbering.{signed};
ghost use Rattle.matrix.specs.Sides.Answers.{EndsAre, NumberOf, BoundIs, GathersTo, as_is, Turns, RightIs};
ghost use Rattle.evaluator.specs.Context.{Over, Under};

use evaluator::Context;
use evaluator::steps::{passing, values};
use rules::{Refused, refused};
use store::Row;
use value::Value;

// A variable's number from 0, the right side, and the word of the floor.
#[derive(Clone, Copy)]
pub struct Bounded {
    pub variable: usize,
    pub right: Value,
    pub floor: u64,
}

// The right side at a position and, where there is one, the floor behind it: two signs and a formula. Here and below `floor` says what was
// read of the constraint: data, not a step.
fn ends_at(cx: &Context<'_>, at: usize, floor: bool) -> Result<(Value, u64), Refused>
    ensures { Under (EndsAre floor) cx.now at result }
{
    let (v, a) = evaluator::value(cx, at)?;
    if !floor {
        return Ok((v, 0));
    }
    let b = passing::skip(cx.stored.tokens, a);
    let (w, _) = evaluator::value(cx, passing::skip(cx.stored.tokens, b))?;
    Ok((v, store::pack(w)))
}

// The number of the variable that is the left side at a position.
fn number_of(
    variables: &[Row],
    total: usize,
    cx: &Context<'_>,
    at: usize,
) -> Result<(usize, usize), Refused>
    ensures { Over NumberOf cx.now.stored variables.now total cx.now.level cx.now.scope at result }
{
    let token = tokens::token_at(cx.stored.tokens, at)?;
    let Some(name) = gatherer::variable_at(
        cx.stored.names,
        cx.stored.tokens,
        cx.level,
        at,
        token.kind,
    ) else {
        return refused!(Misplaced, token.place);
    };
    let all = Context {
        nest: rules::NESTING_LIMIT,
        ..*cx
    };
    gatherer::number(variables, total, &all, token.next, name, token.place)
}

// What a constraint states at an element: the left side, one variable, stands at `left`, the right side at `right`, and a floor
// may follow it.
pub fn bound_at(
    variables: &[Row],
    total: usize,
    cx: &Context<'_>,
    left: usize,
    right: usize,
    floor: bool,
) -> Result<Bounded, Refused>
    ensures { Over (BoundIs floor) cx.now.stored variables.now total cx.now.level cx.now.scope left right result }
{
    let (variable, _) = number_of(variables, total, cx, left)?;
    let (v, w) = ends_at(cx, right, floor)?;
    Ok(Bounded {
        variable,
        right: v,
        floor: w,
    })
}

// The coefficients of the linear form at a position, gathered from zeros.
fn gather(
    variables: &[Row],
    total: usize,
    cx: &Context<'_>,
    at: usize,
    counts: &mut [i64],
) -> Result<(), Refused>
    ensures { Over (GathersTo as_is) cx.now.stored variables.now total cx.now.level cx.now.scope at counts.old result counts.new }
{
    rows::clear(counts);
    gatherer::gathered(variables, total, cx, at, counts)?;
    Ok(())
}

// Every count under a sign.
fn turn(negative: bool, counts: &mut [i64])
    ensures { Turns negative counts.old counts.new }
{
    if negative {
        rows::negate(counts);
    }
}

// The row that a constraint gives at an element, both sides negated where `flips`: its counts, its right side and its floor. The
// left side stands at `left`, the right side at `right`, and a floor may follow it.
pub fn row_at(
    variables: &[Row],
    total: usize,
    cx: &Context<'_>,
    left: usize,
    right: usize,
    floor: bool,
    flips: bool,
    counts: &mut [i64],
) -> Result<(Value, u64), Refused>
    ensures { Over (RightIs flips floor) cx.now.stored variables.now total cx.now.level cx.now.scope left right counts.old result counts.new }
{
    gather(variables, total, cx, left, counts)?;
    turn(flips, counts);
    let (v, w) = ends_at(cx, right, floor)?;
    Ok((values::signed(flips, v), w))
}

// The coefficients of the objective, whose form stands at a position, negated for a minimum.
pub fn objective_at(
    variables: &[Row],
    total: usize,
    cx: &Context<'_>,
    at: usize,
    minimize: bool,
    counts: &mut [i64],
) -> Result<(), Refused>
    ensures { Over (GathersTo (map (signed minimize))) cx.now.stored variables.now total cx.now.level cx.now.scope at counts.old result counts.new }
{
    gather(variables, total, cx, at, counts)?;
    turn(minimize, counts);
    Ok(())
}
