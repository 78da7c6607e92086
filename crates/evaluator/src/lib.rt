// Formulas, sums, subscripts and domains evaluated over the stored tokens, which have been read before. `table` holds the data.
#![tactic(auto)]

pub mod steps;

ghost use Rattle.std.specs.Prelude.{◌<◌};
ghost use Rattle.rules.specs.Limits.{token_limit, nesting_limit};
ghost use Rattle.evaluator.specs.Alone.{NameAlone, TokenAlone, FormulaAlone, EntryFixed, WithinFixed};
ghost use Rattle.evaluator.specs.Cycle.{inside_in, formula_in, primary_in, term_in, factors_in, summands_in, part_in, sum_in, subscript_in, limits_walk, entry_in, bounds_in, Values, Continues, Wholes, LimitsAre, EntryIs, BoundsAre, SubscriptsAre, BodyIs, WithinIs, NamedIs, DatumIs};
ghost use Rattle.evaluator.specs.Context.{Over, Under};

use lexer::Mark;
use rules::{Refused, refused};
use steps::names::Listed;
use steps::scope::Scope;
use steps::values::{Bounds, Limits};
use steps::{passing, values};
use store::{Element, Row};
use tokens::{Kind, Sort};
use value::Value;

// What is stored of a model: its name table, its token table, the rows of its data, and how many of them are given.
#[derive(Clone, Copy)]
pub struct Stored<'a> {
    pub names: &'a [u64],
    pub tokens: &'a [u64],
    pub table: &'a [Row],
    pub given: usize,
}

// What a formula is read under: what is stored, how many names are visible, how many brackets may still open, and what is bound.
#[derive(Clone, Copy)]
pub struct Context<'a> {
    pub stored: Stored<'a>,
    pub level: usize,
    pub nest: usize,
    pub scope: Scope,
}

// A formula's value.
pub fn value(cx: &Context<'_>, at: usize) -> Result<(Value, usize), Refused>
    ensures { Under (Values (formula_in nesting_limit)) cx.now at result }
{
    let all = Context {
        nest: rules::NESTING_LIMIT,
        ..*cx
    };
    formula(&all, at)
}

// Formula: optional sign, then terms joined by `+` or `-`.
#[cycle(evaluation)]
pub fn formula(cx: &Context<'_>, at: usize) -> Result<(Value, usize), Refused>
    ensures { Under (Values (formula_in cx.now.nest)) cx.now at result }
{
    let (minus, first) = passing::sign(cx.stored.tokens, at)?;
    let (v, next) = term(cx, first)?;
    let u = values::signed(minus, v);
    summands(cx, next, u)
}

// Terms joined by `+` or `-`, behind the first one, whose value is v.
#[cycle(evaluation)]
fn summands(cx: &Context<'_>, at: usize, v: Value) -> Result<(Value, usize), Refused>
    ensures { Under (Continues (summands_in cx.now.nest token_limit)) cx.now at v result }
{
    let mut a = at;
    let mut u = v;
    for _ in 0..rules::TOKEN_LIMIT {
        let token = tokens::token_at(cx.stored.tokens, a)?;
        let minus = token.kind == Mark::Minus as u64;
        if !((token.kind == Mark::Plus as u64) | minus) {
            return Ok((u, a));
        }
        let (w, next) = term(cx, token.next)?;
        (u, a) = values::sum(minus, u, w, token.place, next)?;
    }
    Ok((u, a))
}

// Term: primaries joined by `*`.
#[cycle(evaluation)]
fn term(cx: &Context<'_>, at: usize) -> Result<(Value, usize), Refused>
    ensures { Under (Values (term_in cx.now.nest)) cx.now at result }
{
    let (v, next) = primary(cx, at)?;
    factors(cx, next, v)
}

// Primaries joined by `*`, behind the first one, whose value is v.
#[cycle(evaluation)]
fn factors(cx: &Context<'_>, at: usize, v: Value) -> Result<(Value, usize), Refused>
    ensures { Under (Continues (factors_in cx.now.nest token_limit)) cx.now at v result }
{
    let mut a = at;
    let mut u = v;
    for _ in 0..rules::TOKEN_LIMIT {
        let token = tokens::token_at(cx.stored.tokens, a)?;
        if token.kind != Mark::Times as u64 {
            return Ok((u, a));
        }
        let (w, next) = primary(cx, token.next)?;
        (u, a) = values::product(u, w, token.place, next)?;
    }
    Ok((u, a))
}

// Primary: literal, name, `SUM` or formula in brackets.
#[cycle(evaluation)]
pub fn primary(cx: &Context<'_>, at: usize) -> Result<(Value, usize), Refused>
    ensures { Under (Values (primary_in cx.now.nest)) cx.now at result }
{
    let token = tokens::token_at(cx.stored.tokens, at)?;
    if token.kind == Mark::Sum as u64 {
        return sum(cx, token.next, token.place);
    }
    if token.kind == Mark::LeftParen as u64 {
        return part(cx, token.next);
    }
    if token.kind == Kind::Name as u64 {
        let name = steps::names::name_at(cx.stored.names, cx.stored.tokens, at);
        return named(cx, token.next, name, token.place);
    }
    if (token.kind == Kind::Whole as u64) | (token.kind == Kind::Pointed as u64) {
        return Ok((values::literal(token.payload), token.next));
    }
    refused!(Misplaced, token.place)
}

// `SUM(index, lower, upper, formula)` behind its word, which stands at p.
#[cycle(evaluation)]
fn sum(cx: &Context<'_>, at: usize, p: u64) -> Result<(Value, usize), Refused>
    ensures { Under (Values (sum_in cx.now.nest p)) cx.now at result }
{
    let (i, first) = steps::names::head(cx.stored.tokens, cx.level, at)?;
    let (limits, next) = both_limits(cx, first)?;
    let n = values::run(cx.scope, limits, i, p)?;
    body(cx, next, i, limits, n, p)
}

// A sum's body, walked anew for each of the n numbers of the run of index i.
#[cycle(evaluation)]
fn body(
    cx: &Context<'_>,
    at: usize,
    i: usize,
    l: Limits,
    n: usize,
    p: u64,
) -> Result<(Value, usize), Refused>
    ensures { Under (BodyIs cx.now.nest i p) cx.now at l n result }
{
    let end = passing::behind_bracket(cx.stored.tokens, at);
    let mut v = values::zero();
    for j in 0..n {
        let bound = Context {
            scope: values::bind_nth(cx.scope, i, l, j),
            ..*cx
        };
        let (w, _) = inside(&bound, at)?;
        (v, _) = values::sum(false, v, w, p, end)?;
    }
    Ok((v, end))
}

// Two limits, each with the sign behind it; the lower one is rounded up, the upper one down.
#[cycle(evaluation)]
pub fn both_limits(cx: &Context<'_>, at: usize) -> Result<(Limits, usize), Refused>
    ensures { Under (LimitsAre (limits_walk cx.now.nest)) cx.now at result }
{
    let (v, upper) = part(cx, at)?;
    let (w, next) = part(cx, upper)?;
    Ok((values::limits_of(v, w), next))
}

// A subscript: a formula and the sign behind it; refused at p if not whole.
#[cycle(evaluation)]
fn subscript(cx: &Context<'_>, at: usize, p: u64) -> Result<(Value, usize), Refused>
    ensures { Under (Wholes (subscript_in cx.now.nest p)) cx.now at result }
{
    let (v, next) = part(cx, at)?;
    values::whole(v, p, next)
}

// ---- formulas of one token, which most limits and subscripts are: valued at once, outside the cycle. `bound` is the scope they are
// read under; without one a bound index has no value here, and the others have theirs whatever is bound.

// The value of a name that stands alone: a bound index, or an integer or a real without subscripts.
fn name_alone(
    table: &[Row],
    given: usize,
    level: usize,
    bound: Option<Scope>,
    at: usize,
    name: Option<Listed>,
    p: u64,
) -> Option<(Value, usize)>
    ensures { NameAlone table.now given level bound at name p result }
{
    let listed = name?;
    if level <= listed.number {
        return None;
    }
    if listed.sort == Sort::Index as u64 {
        let scope = bound?;
        return values::index_value(scope, listed.number, p, at).ok();
    }
    if listed.count != 0 {
        return None;
    }
    if (listed.sort == Sort::Integer as u64) | (listed.sort == Sort::Real as u64) {
        let key = store::key_of(listed.number, Element::none());
        let row = store::find_early(table, given, key);
        return values::datum(table, row, p, at).ok();
    }
    None
}

// The value of a primary of one token: a literal, or a name that stands alone.
fn token_alone(
    stored: Stored<'_>,
    level: usize,
    bound: Option<Scope>,
    at: usize,
) -> Option<(Value, usize)>
    ensures { Over TokenAlone stored.entry level bound at result }
{
    let token = tokens::token_at(stored.tokens, at).ok()?;
    if (token.kind == Kind::Whole as u64) | (token.kind == Kind::Pointed as u64) {
        return Some((values::literal(token.payload), token.next));
    }
    if token.kind != Kind::Name as u64 {
        return None;
    }
    let name = steps::names::name_at(stored.names, stored.tokens, at);
    name_alone(
        stored.table,
        stored.given,
        level,
        bound,
        token.next,
        name,
        token.place,
    )
}

// The value of a formula of one token inside a bracket, and the position behind the sign that ends it.
fn formula_alone(
    stored: Stored<'_>,
    level: usize,
    bound: Option<Scope>,
    at: usize,
) -> Option<(Value, usize)>
    ensures { Over FormulaAlone stored.entry level bound at result }
{
    let (v, next) = token_alone(stored, level, bound, at)?;
    let sign = tokens::token_at(stored.tokens, next).ok()?;
    if sign.kind == Mark::Times as u64 {
        return None;
    }
    if (sign.kind == Mark::Plus as u64) | (sign.kind == Mark::Minus as u64) {
        return None;
    }
    Some((v, sign.next))
}

// A formula inside a bracket, and the sign behind it.
#[cycle(evaluation)]
fn part(cx: &Context<'_>, at: usize) -> Result<(Value, usize), Refused>
    ensures { Under (Values (part_in cx.now.nest)) cx.now at result }
{
    if cx.nest != 0 {
        let bound = Some(cx.scope);
        if let Some(alone) = formula_alone(cx.stored, cx.level, bound, at) {
            return Ok(alone);
        }
    }
    let (v, end) = inside(cx, at)?;
    Ok((v, passing::skip(cx.stored.tokens, end)))
}

// A formula inside one of `nest` brackets; with none it is never read.
#[cycle(evaluation)]
fn inside(cx: &Context<'_>, at: usize) -> Result<(Value, usize), Refused>
    ensures { Under (Values (inside_in cx.now.nest)) cx.now at result }
{
    if cx.nest == 0 {
        return refused!(Full, 0);
    }
    let inner = Context {
        nest: cx.nest - 1,
        ..*cx
    };
    formula(&inner, at)
}

// A primary that is a name, read at p: an index, a declared formula, an integer or a real.
#[cycle(evaluation)]
fn named(
    cx: &Context<'_>,
    at: usize,
    name: Option<Listed>,
    p: u64,
) -> Result<(Value, usize), Refused>
    ensures { Under (NamedIs cx.now.nest p) cx.now at name result }
{
    let Some(listed) = name else {
        return refused!(BadName, p);
    };
    if cx.level <= listed.number {
        return refused!(BadName, p);
    }
    if listed.sort == Sort::Index as u64 {
        return values::index_value(cx.scope, listed.number, p, at);
    }
    if listed.sort == Sort::Formula as u64 {
        let before = Context {
            level: listed.number,
            nest: rules::NESTING_LIMIT,
            ..*cx
        };
        let (v, _) = formula(&before, listed.start)?;
        return Ok((v, at));
    }
    if (listed.sort == Sort::Integer as u64) | (listed.sort == Sort::Real as u64) {
        return datum(cx, at, listed, p);
    }
    refused!(Misplaced, p)
}

// The datum of a name, whose domain has `count` indices and was declared at `start`.
#[cycle(evaluation)]
fn datum(cx: &Context<'_>, at: usize, name: Listed, p: u64) -> Result<(Value, usize), Refused>
    requires { name.number < cx.now.level }
    ensures { Under (DatumIs cx.now.nest name.number name.count name.start p) cx.now at result }
{
    let (e, next) = subscripts(cx, at, name.count, p)?;
    let i = name.number;
    within(cx.stored, i, name.start, e, p)?;
    values::known(cx.stored.table, cx.stored.given, i, e, p, next)
}

// `[` as many formulas as the name has indices `]`, each tested whole as read.
#[cycle(evaluation)]
pub fn subscripts(
    cx: &Context<'_>,
    at: usize,
    count: u64,
    p: u64,
) -> Result<(Element, usize), Refused>
    ensures { Under (SubscriptsAre cx.now.nest p count) cx.now at result }
{
    let mut e = Element::none();
    if count == 0 {
        return Ok((e, at));
    }
    let mut a = passing::skip(cx.stored.tokens, at);
    for _ in 0..count {
        let (v, next) = subscript(cx, a, p)?;
        e = values::grown(e, v);
        a = next;
    }
    Ok((e, a))
}

// Lower formula `<=` index `<=` upper formula, and the sign behind it.
#[cycle(evaluation)]
pub fn entry(cx: &Context<'_>, at: usize) -> Result<(Bounds, usize), Refused>
    ensures { Under (EntryIs (entry_in cx.now.nest)) cx.now at result }
{
    let (v, next) = part(cx, at)?;
    bounds(cx, next, v)
}

// An entry behind its lower formula, whose value is v.
#[cycle(evaluation)]
fn bounds(cx: &Context<'_>, at: usize, v: Value) -> Result<(Bounds, usize), Refused>
    ensures { Under (BoundsAre (bounds_in cx.now.nest)) cx.now at v result }
{
    let token = tokens::token_at(cx.stored.tokens, at)?;
    let upper = passing::skip(cx.stored.tokens, token.next);
    let (w, next) = part(cx, upper)?;
    let i = steps::names::index_number(cx.stored.tokens, cx.level, at);
    Ok((values::bounds_of(i, token.place, v, w), next))
}

// ---- domain tests by limits of one token, which most declared limits are: read at once, outside the cycle, with nothing bound

// The limits of an entry, both formulas of one token.
fn entry_fixed(stored: Stored<'_>, level: usize, at: usize) -> Option<(Limits, usize)>
    ensures { Over EntryFixed stored.entry level at result }
{
    let (v, index) = formula_alone(stored, level, None, at)?;
    let token = tokens::token_at(stored.tokens, index).ok()?;
    let upper = passing::skip(stored.tokens, token.next);
    let (w, next) = formula_alone(stored, level, None, upper)?;
    Some((values::limits_of(v, w), next))
}

// The domain test by such limits.
fn within_fixed(
    stored: Stored<'_>,
    level: usize,
    at: usize,
    e: Element,
    p: u64,
) -> Option<Result<(), Refused>>
    ensures { Over WithinFixed stored.entry level at e p result }
{
    let n = e.length();
    let mut a = at;
    for j in 0..n {
        let (limits, next) = entry_fixed(stored, level, a)?;
        if !values::lies(e.at(j), limits) {
            return Some(refused!(Outside, p));
        }
        a = next;
    }
    Some(Ok(()))
}

// The domain test of an element for a name read at p, with the names before its declaration: position by position, the declared
// limits read as they are reached.
#[cycle(evaluation)]
pub fn within(
    stored: Stored<'_>,
    level: usize,
    at: usize,
    e: Element,
    p: u64,
) -> Result<(), Refused>
    ensures { Over WithinIs stored.entry level at e p result }
{
    if let Some(tried) = within_fixed(stored, level, at, e, p) {
        return tried;
    }
    let n = e.length();
    let mut scope = Scope::none();
    let mut a = at;
    for j in 0..n {
        let cx = Context {
            stored,
            level,
            nest: rules::NESTING_LIMIT,
            scope,
        };
        let (bounds, next) = entry(&cx, a)?;
        scope = values::test(scope, e, j, bounds, p)?;
        a = next;
    }
    Ok(())
}
