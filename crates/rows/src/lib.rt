// The rows and bounds of a problem in tables that the caller lends. What they hold is said in specs/Slots.antt and
// specs/Bounds.antt, and of a whole problem in specs/Held.antt. Every public function is total.
#![tactic(auto)]

ghost use Rattle.std.specs.Prelude.{◌≡◌, map, ◌+◌, ltb, length, get_or, replicate, pos};
ghost use Rattle.rules.specs.Limits.{row_limit};
ghost use Rattle.store.specs.Element.{list_of};
ghost use Rattle.store.specs.Table.{word_at};
ghost use Rattle.rows.specs.Counts.{opposed};
ghost use Rattle.rows.specs.Slots.{next_slot, floor_slot, one_more, counted_as, Wrote};
ghost use Rattle.rows.specs.Bounds.{unstated, nth_bound, gives_way, stated_value, stated_if, bound_stated, floor_stated};
ghost use Rattle.rows.specs.Read.{within, slot_at, count_at, value_of, lower_in, upper_in, end_in};

use store::Row;

// ---- rows of counts

pub fn clear(counts: &mut [i64])
    ensures { counts.new ≡ replicate (length counts.old) (pos 0) }
{
    counts.fill(0);
}

// The opposite of a count; what is below any count stays.
fn opposite_of(z: i64) -> i64
    ensures { result ≡ opposed z }
{
    let lowest = -(value::count_limit() as i64);
    if z < lowest {
        return z;
    }
    -z
}

// Every count's opposite.
pub fn negate(counts: &mut [i64])
    ensures { counts.new ≡ map opposed counts.old }
{
    for z in counts.iter_mut() {
        *z = opposite_of(*z);
    }
}

// ---- slots

// How many rows there are of `<=` and `>=`, and of `=`.
#[derive(Clone, Copy)]
pub struct Filled {
    pub less: usize,
    pub equal: usize,
}

// Is there a slot for one row more?
pub fn has_room(filled: Filled) -> bool
    ensures { result ≡ ltb (filled.less + filled.equal) row_limit }
{
    let less = filled.less;
    if rules::ROW_LIMIT <= less {
        return false;
    }
    filled.equal < rules::ROW_LIMIT - less
}

// The slot of the row that comes next; where all are taken, the spare row. `equal` is the row's relation: data, not a step.
pub fn next_slot(filled: Filled, equal: bool) -> usize
    ensures { result ≡ next_slot filled.less filled.equal equal }
{
    if !has_room(filled) {
        return rules::ROW_LIMIT + 1;
    }
    if equal {
        return rules::ROW_LIMIT - 1 - filled.equal;
    }
    filled.less
}

fn one_more(n: usize) -> usize
    ensures { result ≡ one_more n }
{
    if n < rules::ROW_LIMIT {
        return n + 1;
    }
    n
}

// One row more is counted, as far as there are slots. `equal` is its relation: data, not a step.
fn counted(filled: Filled, equal: bool) -> Filled
    ensures { result ≡ counted_as filled equal }
{
    if equal {
        return Filled {
            less: filled.less,
            equal: one_more(filled.equal),
        };
    }
    Filled {
        less: one_more(filled.less),
        equal: filled.equal,
    }
}

// The row of the table that has the floor of a slot, behind the slots, the objective's row and the spare one.
fn floor_slot(k: usize) -> usize
    ensures { result ≡ floor_slot k }
{
    if k < rules::ROW_LIMIT + 2 {
        return k + rules::ROW_LIMIT + 2;
    }
    0
}

// Writes the next row's constraint, element and right side into its slot and its floor's word, 0 where it has none, into the slot's
// second row, and counts it. `equal` is its relation: data, not a step.
pub fn write(
    rows: &mut [Row],
    filled: Filled,
    equal: bool,
    ordinal: usize,
    e: store::Element,
    right: value::Value,
    floor: u64,
) -> Filled
    ensures { Wrote rows.old filled equal ordinal (list_of e) right floor result rows.new }
{
    let slot = next_slot(filled, equal);
    let key = store::key_of(ordinal, e);
    let word = store::pack(right);
    store::append(rows, slot, key, word);
    store::append(rows, floor_slot(slot), key, floor);
    counted(filled, equal)
}

// ---- bounds

// The bounds that are stated for a variable: the largest lower one and the smallest upper one.
#[derive(Clone, Copy)]
pub struct Bound {
    pub lower: Option<value::Value>,
    pub upper: Option<value::Value>,
}

impl Bound {
    pub fn unstated() -> Self
        ensures { result ≡ unstated }
    {
        Bound {
            lower: None,
            upper: None,
        }
    }
}

// Does the old bound give way to the new one? Of lower bounds the larger is kept, of upper ones the smaller.
fn gives_way(old: value::Value, new: value::Value, larger: bool) -> bool
    ensures { result ≡ gives_way larger old new }
{
    if larger {
        return old.at_most(new);
    }
    new.at_most(old)
}

// The bound after v is stated.
fn stated(old: Option<value::Value>, v: value::Value, larger: bool) -> value::Value
    ensures { result ≡ stated_value larger old v }
{
    let Some(u) = old else {
        return v;
    };
    if gives_way(u, v, larger) {
        return v;
    }
    u
}

// The same where v is a bound of this kind; else the bound stays.
fn stated_if(
    applies: bool,
    old: Option<value::Value>,
    v: value::Value,
    larger: bool,
) -> Option<value::Value>
    ensures { result ≡ stated_if larger applies old v }
{
    if applies {
        return Some(stated(old, v, larger));
    }
    old
}

// States v as a lower bound of variable j, as an upper one, or as both.
pub fn state(bounds: &mut [Bound], j: usize, lower: bool, upper: bool, v: value::Value)
    ensures { bounds.new ≡ bound_stated bounds.old j lower upper v }
{
    if bounds.len() <= j {
        return;
    }
    let old = bounds[j];
    bounds[j] = Bound {
        lower: stated_if(lower, old.lower, v, true),
        upper: stated_if(upper, old.upper, v, false),
    };
}

// States the floor of a word as a lower bound of variable j, where there is one.
pub fn state_floor(bounds: &mut [Bound], j: usize, floor: u64)
    ensures { bounds.new ≡ floor_stated bounds.old j floor }
{
    if floor == 0 {
        return;
    }
    state(bounds, j, true, false, store::unpack(floor));
}

// ---- a problem's sizes, and what is read of its tables

// The numbers of a problem's variables, with the discrete ones among them, and of its rows of either kind.
#[derive(Clone, Copy)]
pub struct Sizes {
    pub discrete: usize,
    pub variables: usize,
    pub less: usize,
    pub equal: usize,
}

// Are there at most as many variables and rows as the tables have room for?
pub fn is_within(sizes: Sizes) -> bool
    ensures { result ≡ within sizes }
{
    let less = sizes.less;
    let equal = sizes.equal;
    let variables = sizes.variables;
    if rules::ROW_LIMIT < less {
        return false;
    }
    (variables <= rules::VARIABLE_LIMIT) & (equal <= rules::ROW_LIMIT - less)
}

// Word k of a table, 0 where there is none.
pub fn word(table: &[u64], k: usize) -> u64
    ensures { result ≡ get_or table.now k 0 }
{
    table.get(k).copied().unwrap_or(0)
}

// The slot of row i, from 0, of which the first `less` are those of `<=` and `>=`.
pub fn slot(less: usize, i: usize) -> usize
    ensures { result ≡ slot_at less i }
{
    if i < less {
        return i;
    }
    let k = i - less;
    if k < rules::ROW_LIMIT {
        return rules::ROW_LIMIT - 1 - k;
    }
    0
}

// The count of variable j in row k of the counts, 0 where the table has none.
pub fn count_at(counts: &[i64], k: usize, j: usize) -> i64
    ensures { result ≡ count_at counts.now k j }
{
    let n = counts.len();
    if n / rules::VARIABLE_LIMIT < k {
        return 0;
    }
    if n <= j {
        return 0;
    }
    let at = k * rules::VARIABLE_LIMIT + j;
    if at < n {
        return counts[at];
    }
    0
}

// The value of a count of millionths; 0 where it does not fit.
pub fn value_of(z: i64) -> value::Value
    ensures { result ≡ value_of z }
{
    value::of_millionths(z).unwrap_or(value::Value::from(0))
}

// The floor of a slot, if it has one.
pub fn floor_of(rows: &[Row], k: usize) -> Option<value::Value>
    ensures { result ≡ end_in (word_at rows.now (floor_slot k)) }
{
    let w = store::word_at(rows, floor_slot(k));
    if w == 0 {
        return None;
    }
    Some(store::unpack(w))
}

// The bounds of variable j, from 0; none where the table has no such variable.
fn bound_at(bounds: &[Bound], j: usize) -> Bound
    ensures { result ≡ nth_bound bounds.now j }
{
    bounds.get(j).copied().unwrap_or(Bound::unstated())
}

// The lower bound of variable j, from 0: that which is stated, or 0.
pub fn lower_of(bounds: &[Bound], j: usize) -> value::Value
    ensures { result ≡ lower_in bounds.now j }
{
    bound_at(bounds, j).lower.unwrap_or(value::Value::from(0))
}

// The upper bound of variable j, from 0: that which is stated, or none.
pub fn upper_of(bounds: &[Bound], j: usize) -> Option<value::Value>
    ensures { result ≡ upper_in bounds.now j }
{
    bound_at(bounds, j).upper
}
