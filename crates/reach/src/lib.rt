// How far a row of a problem can reach over the bounds of its variables: its least or its greatest value, from the problem's tables, or
// that this end is open. Every public function is total.
#![tactic(auto)]

ghost use Rattle.std.specs.Prelude.{◌≡◌};
ghost use Rattle.rows.specs.Read.{lower_in, upper_in, value_of};
ghost use Rattle.reach.specs.Reach.{takes};
ghost use Rattle.reach.specs.Tables.{is_greatest, lower_taken, added_in, column_in, Reaches};

use rows::Bound;
use value::Value;

// The two ends of a row: its least value and its greatest.
#[derive(Clone, Copy)]
pub enum End {
    Least,
    Greatest,
}

// Does an end take the lower bound of a variable whose coefficient is c?
fn takes_lower(end: End, c: Value) -> bool
    ensures { result ≡ lower_taken (is_greatest end) c }
{
    match end {
        End::Least => 0 <= c.m,
        End::Greatest => c.m < 0,
    }
}

// The bound of variable j that an end of a row takes where its coefficient is c.
fn taken(bounds: &[Bound], j: usize, c: Value, end: End) -> Option<Value>
    ensures { result ≡ takes (is_greatest end) c (lower_in bounds.now j) (upper_in bounds.now j) }
{
    if takes_lower(end, c) {
        return Some(rows::lower_of(bounds, j));
    }
    rows::upper_of(bounds, j)
}

// The sum t and c times a bound, if there is a bound and both fit.
fn added(t: Value, c: Value, bound: Option<Value>) -> Option<Value>
    ensures { result ≡ added_in t c bound }
{
    let product = value::mul(c, bound?)?;
    value::add(t, product)
}

// The sum t with the column of variable j, whose coefficient has the count z.
fn column(t: Value, z: i64, bounds: &[Bound], j: usize, end: End) -> Option<Value>
    ensures { result ≡ column_in bounds.now (is_greatest end) j t (value_of z) }
{
    let c = rows::value_of(z);
    if c.is_zero() {
        return Some(t);
    }
    added(t, c, taken(bounds, j, c, end))
}

// An end of the row in slot k, over n variables.
pub fn end_of(counts: &[i64], bounds: &[Bound], k: usize, n: usize, end: End) -> Option<Value>
    ensures { Reaches counts.now bounds.now k n (is_greatest end) result }
{
    let mut t = Value::from(0);
    for j in 0..n {
        t = column(t, rows::count_at(counts, k, j), bounds, j, end)?;
    }
    Some(t)
}
