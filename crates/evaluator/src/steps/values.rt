// Operations on values and whole numbers, each with the place of its refusal and the position behind what was read.
ghost use Rattle.std.specs.Prelude.{◌≡◌, ◌/◌, ◌%◌, ◌≤◌, leb, pos, nat_abs, ◌+ℤ◌, ◌-ℤ◌};
ghost use Rattle.rules.specs.Limits.{mantissa_limit, run_limit};
ghost use Rattle.rational.specs.Integer.{up};
ghost use Rattle.value.specs.Decimal.{zero_value, product_of, sum_of, if_in_range, floor_of, ceiling_of};
ghost use Rattle.store.specs.Element.{list_of, extended};
ghost use Rattle.evaluator.specs.Steps.Scopes.{bindings_of, bound_more};
ghost use Rattle.evaluator.specs.Steps.Values.{fitted_at, signed_value, whole_answer, bound_answer, SmallSpan, count_of, run_answer, number_in, inside_limits, Tests, word_answer, known_answer};
ghost use Rattle.store.specs.Table.{word_in};

use super::scope::Scope;
use rules::{Refused, refused};
use store::{Element, Row};
use value::Value;

// The two limits of a run.
#[derive(Clone, Copy)]
pub struct Limits {
    pub lower: i64,
    pub upper: i64,
}

// One entry of a domain: its index's number and place, and its limits.
#[derive(Clone, Copy)]
pub struct Bounds {
    pub number: usize,
    pub place: u64,
    pub limits: Limits,
}

// ---- values

pub fn zero() -> Value
    ensures { result ≡ zero_value }
{
    Value { m: 0, s: 0 }
}

// A literal's value by its token's payload.
pub fn literal(x: u64) -> Value
    ensures { result ≡ record { m = pos (x / 8); s = x % 8 } }
{
    Value {
        m: (x / 8) as i64,
        s: (x % 8) as usize,
    }
}

fn fitted(f: Option<Value>, p: u64, at: usize) -> Result<(Value, usize), Refused>
    ensures { result ≡ fitted_at p at f }
{
    match f {
        Some(v) => Ok((v, at)),
        None => refused!(Unfit, p),
    }
}

// A value under a sign. `minus` is the sign that was read: data, not a step.
pub fn signed(minus: bool, v: Value) -> Value
    ensures { result ≡ signed_value minus v }
{
    if minus {
        return -v;
    }
    v
}

// A product whose sign stands at p.
pub fn product(v: Value, w: Value, p: u64, at: usize) -> Result<(Value, usize), Refused>
    ensures { result ≡ fitted_at p at (if_in_range v w (product_of v w)) }
{
    fitted(value::mul(v, w), p, at)
}

// A sum or a difference, refused at p. `minus` is the sign that was read: data, not a step.
pub fn sum(minus: bool, v: Value, w: Value, p: u64, at: usize) -> Result<(Value, usize), Refused>
    ensures { result ≡ fitted_at p at (if_in_range v (signed_value minus w) (sum_of v (signed_value minus w))) }
{
    let u = signed(minus, w);
    fitted(value::add(v, u), p, at)
}

// ---- whole numbers

// A value that must be whole.
pub fn whole(v: Value, p: u64, at: usize) -> Result<(Value, usize), Refused>
    ensures { result ≡ whole_answer p at v }
{
    match i64::try_from(v) {
        Ok(_) => Ok((v, at)),
        Err(_) => refused!(NotWhole, p),
    }
}

// The value of an index that is read at p.
pub fn index_value(sc: Scope, i: usize, p: u64, at: usize) -> Result<(Value, usize), Refused>
    ensures { result ≡ bound_answer p at sc i }
{
    match sc.bound_to(i) {
        Some(k) => Ok((Value::from(k), at)),
        None => refused!(BadIndex, p),
    }
}

// Two values as limits: the lower one rounded up, the upper one down.
pub fn limits_of(v: Value, w: Value) -> Limits
    ensures { result ≡ record { lower = ceiling_of v; upper = floor_of w } }
{
    let lower = value::ceiling_of(v);
    let upper = value::floor_of(w);
    Limits { lower, upper }
}

// A domain's entry of two values.
pub fn bounds_of(number: usize, place: u64, v: Value, w: Value) -> Bounds
    ensures { result ≡ record { number = number; place = place; limits = record { lower = ceiling_of v; upper = floor_of w } } }
{
    let l = limits_of(v, w);
    Bounds {
        number,
        place,
        limits: l,
    }
}

// A whole value behind the others of an element.
pub fn grown(e: Element, v: Value) -> Element
    ensures { list_of result ≡ extended (list_of e) v.m }
{
    e.with(v.m)
}

// ---- runs

fn is_small(k: i64) -> bool
    ensures { result ≡ leb (nat_abs k) mantissa_limit }
{
    let limit = rules::MANTISSA_LIMIT as i64;
    if k < 0 - limit {
        return false;
    }
    k <= limit
}

// How many numbers lie from a to b, which is no less.
fn span(a: i64, b: i64) -> usize
    requires { SmallSpan a b }
    ensures { result ≡ up (b +ℤ pos 1 -ℤ a) }
{
    (b - a) as usize + 1
}

// How many numbers lie from the lower to the upper limit, 0 where one of them is no value.
fn length_of(l: Limits) -> usize
    ensures { result ≡ count_of l }
{
    let a = l.lower;
    let b = l.upper;
    if b < a {
        return 0;
    }
    if !is_small(a) {
        return 0;
    }
    if !is_small(b) {
        return 0;
    }
    span(a, b)
}

// The run of an index from its lower to its upper limit, at p: its length, then whether the index may be bound.
pub fn run(sc: Scope, l: Limits, i: usize, p: u64) -> Result<usize, Refused>
    ensures { result ≡ run_answer l i sc p }
{
    let n = length_of(l);
    if rules::RUN_LIMIT < n {
        return refused!(NotWhole, p);
    }
    if !sc.takes(i) {
        return refused!(BadIndex, p);
    }
    Ok(n)
}

// The j-th number of a run from a on, counted from 0.
fn nth(a: i64, j: usize) -> i64
    requires { (nat_abs a ≤ mantissa_limit) × (j ≤ run_limit) }
    ensures { result ≡ a +ℤ pos j }
{
    a + j as i64
}

// The j-th number of a run by its limits; 0 where they are no values, or the run is never so long.
pub fn nth_number(l: Limits, j: usize) -> i64
    ensures { result ≡ number_in l j }
{
    let a = l.lower;
    if !is_small(a) {
        return 0;
    }
    if rules::RUN_LIMIT < j {
        return 0;
    }
    nth(a, j)
}

// An index bound to the j-th number of its run.
pub fn bind_nth(sc: Scope, i: usize, l: Limits, j: usize) -> Scope
    ensures { bindings_of result ≡ bound_more i (number_in l j) (bindings_of sc) }
{
    let k = nth_number(l, j);
    sc.bind(i, k)
}

// Does a number lie between two limits?
pub fn lies(k: i64, l: Limits) -> bool
    ensures { result ≡ inside_limits l k }
{
    if k < l.lower {
        return false;
    }
    k <= l.upper
}

// Does the j-th subscript lie between the limits? Then it is bound; else the name read at p is refused.
pub fn test(sc: Scope, e: Element, j: usize, b: Bounds, p: u64) -> Result<Scope, Refused>
    ensures { Tests sc (list_of e) j b p result }
{
    let k = e.at(j);
    let l = b.limits;
    if k < l.lower {
        return refused!(Outside, p);
    }
    if l.upper < k {
        return refused!(Outside, p);
    }
    Ok(sc.bind(b.number, k))
}

// ---- data

// The datum in the row that was found, or the refusal at p.
pub fn datum(
    table: &[Row],
    found: Option<usize>,
    p: u64,
    at: usize,
) -> Result<(Value, usize), Refused>
    ensures { result ≡ word_answer p at (word_in table.now found) }
{
    match found {
        Some(j) => Ok((store::unpack(store::word_at(table, j)), at)),
        None => refused!(Missing, p),
    }
}

// The datum of a name and an element, read at p. The table is searched by halving, sorted or not.
pub fn known(
    table: &[Row],
    rows: usize,
    i: usize,
    e: Element,
    p: u64,
    at: usize,
) -> Result<(Value, usize), Refused>
    ensures { result ≡ known_answer table.now rows i (list_of e) p at }
{
    let key = store::key_of(i, e);
    datum(table, store::find(table, rows, key), p, at)
}
