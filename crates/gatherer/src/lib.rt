// The coefficients of a linear form, gathered over the stored tokens into a lent row of counts of millionths, one for each
// variable. `variables` and `total`: the table of variables and its rows; the other tables are the evaluator's.
#![tactic(auto)]

ghost use Rattle.std.specs.Prelude.{◌≡◌, false};
ghost use Rattle.rules.specs.Limits.{token_limit, nesting_limit};
ghost use Rattle.value.specs.Decimal.{one_value};
ghost use Rattle.language.specs.Numbering.{xor};
ghost use Rattle.evaluator.specs.Cycle.{Continues};
ghost use Rattle.evaluator.specs.Context.{Over, Under};
ghost use Rattle.gatherer.specs.Cycle.{factor_in, term_in, terms_in, form_in, sigma_in, body_in, gather_in, variable_seen, NumberIs, EndingIs, VariableIs, RunningIs, RunsAre, Gathers};

use evaluator::Context;
use evaluator::steps::names::Listed;
use evaluator::steps::values::Limits;
use evaluator::steps::{passing, values};
use lexer::Mark;
use rules::{Refused, refused};
use store::Row;
use tokens::{Kind, Sort};
use value::Value;

// What a term ends with behind its primaries, with their product: a variable, by its name, its place and the position behind it; or
// a sigma, by its place and the position behind its word.
#[derive(Clone, Copy)]
enum Ending {
    Variable(Value, Listed, u64, usize),
    Sigma(Value, u64, usize),
}

// A run: its index, limits, how many numbers it has, and the position of its body.
#[derive(Clone, Copy)]
struct Running {
    index: usize,
    limits: Limits,
    count: usize,
    body: usize,
}

// The number of the variable of a name, read at p.
pub fn number(
    variables: &[Row],
    total: usize,
    cx: &Context<'_>,
    at: usize,
    name: Listed,
    p: u64,
) -> Result<(usize, usize), Refused>
    ensures { Over (NumberIs cx.now.nest name.number name.count name.start p) cx.now.stored variables.now total cx.now.level cx.now.scope at result }
{
    let (e, next) = evaluator::subscripts(cx, at, name.count, p)?;
    evaluator::within(cx.stored, name.number, name.start, e, p)?;
    let key = store::key_of(name.number, e);
    let Some(j) = store::find(variables, total, key) else {
        return refused!(Outside, p);
    };
    Ok((j, next))
}

// The variable at a position, whose token has kind k, if it names one.
pub fn variable_at(names: &[u64], tokens: &[u64], level: usize, at: usize, k: u64) -> Option<Listed>
    ensures { result ≡ variable_seen names.now tokens.now level at k }
{
    if k != Kind::Name as u64 {
        return None;
    }
    let name = evaluator::steps::names::name_at(names, tokens, at)?;
    if level <= name.number {
        return None;
    }
    if (name.sort == Sort::Discrete as u64) | (name.sort == Sort::Continuous as u64) {
        return Some(name);
    }
    None
}

// A primary and the `*` behind it: its product with c, refused at the `*`.
fn factor(cx: &Context<'_>, at: usize, c: Value) -> Result<(Value, usize), Refused>
    ensures { Under (Continues (factor_in cx.now.nest)) cx.now at c result }
{
    let (v, next) = evaluator::primary(cx, at)?;
    let star = tokens::token_at(cx.stored.tokens, next)?;
    values::product(c, v, star.place, star.next)
}

// Primaries each followed by `*`, and what the term ends with.
fn end_of(cx: &Context<'_>, at: usize, c: Value, sigmas: bool) -> Result<Ending, Refused>
    ensures { Under (EndingIs cx.now.nest sigmas) cx.now at c result }
{
    let mut a = at;
    let mut u = c;
    for _ in 0..rules::TOKEN_LIMIT {
        let token = tokens::token_at(cx.stored.tokens, a)?;
        if sigmas & (token.kind == Mark::Sigma as u64) {
            return Ok(Ending::Sigma(u, token.place, token.next));
        }
        if let Some(name) = variable_at(
            cx.stored.names,
            cx.stored.tokens,
            cx.level,
            a,
            token.kind,
        ) {
            return Ok(Ending::Variable(u, name, token.place, token.next));
        }
        (u, a) = factor(cx, a, u)?;
    }
    refused!(Full, 0)
}

// A variable's coefficient c, with its sign, added to the row; refused at its name, p. Here and below `minus` is the sign that what is
// read stands under: data, not a step.
fn variable(
    variables: &[Row],
    total: usize,
    cx: &Context<'_>,
    at: usize,
    c: Value,
    minus: bool,
    name: Listed,
    p: u64,
    row: &mut [i64],
) -> Result<usize, Refused>
    ensures { Over (VariableIs cx.now.nest name.number name.count name.start p) cx.now.stored variables.now total cx.now.level cx.now.scope at c minus row.old result row.new }
{
    let (j, next) = number(variables, total, cx, at, name, p)?;
    let fits = value::gather(row, j, values::signed(minus, c));
    if !fits {
        return refused!(Unfit, p);
    }
    Ok(next)
}

// A sign under a sign.
fn flipped(minus: bool, negative: bool) -> bool
    ensures { result ≡ xor minus negative }
{
    if minus {
        return !negative;
    }
    negative
}

// A linear form, from the coefficient 1 and without a sign before it.
pub fn gathered(
    variables: &[Row],
    total: usize,
    cx: &Context<'_>,
    at: usize,
    row: &mut [i64],
) -> Result<usize, Refused>
    ensures { Over (Gathers (gather_in nesting_limit)) cx.now.stored variables.now total cx.now.level cx.now.scope at one_value false row.old result row.new }
{
    let one = Value { m: 1, s: 0 };
    let all = Context {
        nest: rules::NESTING_LIMIT,
        ..*cx
    };
    form(variables, total, &all, at, one, false, true, row)
}

// Optional sign, then terms joined by `+` or `-`.
#[cycle(gathering)]
fn form(
    variables: &[Row],
    total: usize,
    cx: &Context<'_>,
    at: usize,
    c: Value,
    minus: bool,
    sigmas: bool,
    row: &mut [i64],
) -> Result<usize, Refused>
    ensures { Over (Gathers (form_in sigmas cx.now.nest)) cx.now.stored variables.now total cx.now.level cx.now.scope at c minus row.old result row.new }
{
    let (negative, a) = passing::sign(cx.stored.tokens, at)?;
    let m = flipped(minus, negative);
    let b = term(variables, total, cx, a, c, m, sigmas, row)?;
    terms(variables, total, cx, b, c, minus, sigmas, row)
}

// Terms joined by `+` or `-`, behind the first one.
#[cycle(gathering)]
fn terms(
    variables: &[Row],
    total: usize,
    cx: &Context<'_>,
    at: usize,
    c: Value,
    minus: bool,
    sigmas: bool,
    row: &mut [i64],
) -> Result<usize, Refused>
    ensures { Over (Gathers (terms_in sigmas cx.now.nest token_limit)) cx.now.stored variables.now total cx.now.level cx.now.scope at c minus row.old result row.new }
{
    let mut a = at;
    for _ in 0..rules::TOKEN_LIMIT {
        let token = tokens::token_at(cx.stored.tokens, a)?;
        let negative = token.kind == Mark::Minus as u64;
        let joined = (token.kind == Mark::Plus as u64) | negative;
        if !joined {
            return Ok(a);
        }
        let m = flipped(minus, negative);
        a = term(variables, total, cx, token.next, c, m, sigmas, row)?;
    }
    Ok(a)
}

// Primaries each followed by `*`, then a variable, or a sigma where `sigmas` are allowed.
#[cycle(gathering)]
fn term(
    variables: &[Row],
    total: usize,
    cx: &Context<'_>,
    at: usize,
    c: Value,
    minus: bool,
    sigmas: bool,
    row: &mut [i64],
) -> Result<usize, Refused>
    ensures { Over (Gathers (term_in sigmas cx.now.nest)) cx.now.stored variables.now total cx.now.level cx.now.scope at c minus row.old result row.new }
{
    let end = end_of(cx, at, c, sigmas)?;
    match end {
        Ending::Variable(u, name, p, next) => variable(
            variables, total, cx, next, u, minus, name, p, row,
        ),
        Ending::Sigma(u, p, next) => sigma(variables, total, cx, next, u, minus, p, row),
    }
}

// A sigma behind its word, which stands at p.
#[cycle(gathering)]
fn sigma(
    variables: &[Row],
    total: usize,
    cx: &Context<'_>,
    at: usize,
    c: Value,
    minus: bool,
    p: u64,
    row: &mut [i64],
) -> Result<usize, Refused>
    ensures { Over (Gathers (sigma_in cx.now.nest p)) cx.now.stored variables.now total cx.now.level cx.now.scope at c minus row.old result row.new }
{
    if cx.nest == 0 {
        return refused!(Full, 0);
    }
    let inner = Context {
        nest: cx.nest - 1,
        ..*cx
    };
    let run = run_of(cx, at, p)?;
    runs(
        variables, total, &inner, run.body, c, minus, run.index, run.limits, run.count, row,
    )
}

// The run of a sigma behind its word, which stands at p. Its body stands behind the word: no walk goes back.
fn run_of(cx: &Context<'_>, at: usize, p: u64) -> Result<Running, Refused>
    ensures { Under (RunningIs cx.now.nest p) cx.now at result }
{
    let (index, a) = evaluator::steps::names::head(cx.stored.tokens, cx.level, at)?;
    let (limits, body) = evaluator::both_limits(cx, a)?;
    let count = values::run(cx.scope, limits, index, p)?;
    if body <= at {
        return refused!(Full, 0);
    }
    Ok(Running {
        index,
        limits,
        count,
        body,
    })
}

// A sigma's body, gathered for each of the n numbers of the run of index i.
#[cycle(gathering)]
fn runs(
    variables: &[Row],
    total: usize,
    cx: &Context<'_>,
    at: usize,
    c: Value,
    minus: bool,
    i: usize,
    l: Limits,
    n: usize,
    row: &mut [i64],
) -> Result<usize, Refused>
    ensures { Over (RunsAre cx.now.nest i) cx.now.stored variables.now total cx.now.level cx.now.scope at c minus l n row.old result row.new }
{
    for j in 0..n {
        let inner = Context {
            scope: values::bind_nth(cx.scope, i, l, j),
            ..*cx
        };
        body(variables, total, &inner, at, c, minus, row)?;
    }
    Ok(passing::behind_bracket(cx.stored.tokens, at))
}

// A sigma's body: another sigma, or a linear form without sigma.
#[cycle(gathering)]
fn body(
    variables: &[Row],
    total: usize,
    cx: &Context<'_>,
    at: usize,
    c: Value,
    minus: bool,
    row: &mut [i64],
) -> Result<usize, Refused>
    ensures { Over (Gathers (body_in cx.now.nest)) cx.now.stored variables.now total cx.now.level cx.now.scope at c minus row.old result row.new }
{
    let token = tokens::token_at(cx.stored.tokens, at)?;
    if token.kind == Mark::Sigma as u64 {
        return sigma(variables, total, cx, token.next, c, minus, token.place, row);
    }
    form(variables, total, cx, at, c, minus, false, row)
}
