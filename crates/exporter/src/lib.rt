// The export of a problem, written from its tables. Each piece is written from the byte where the last one ended, as far as the
// output reaches; the export's length is given whether or not the output reaches that far.
// What writes takes the output and a place in it, and gives the place behind what it wrote: document 01 names this form, where the rest of
// the output is lent to the writer of a line.
#![tactic(auto)]

ghost use Rattle.std.specs.Prelude.{◌≡◌, ◌++◌, ◌+◌, ◌-◌, ◌<◌, ◌≤◌, ◌^◌, length};
ghost use Rattle.value.specs.Printed.{natural, shown, Written};
ghost use Rattle.rows.specs.Read.{value_of};
ghost use Rattle.mps.specs.Export.{named};
ghost use Rattle.exporter.specs.Texts.{text_from, shown_line, floor_at, floor_row, cell_start, shown_twice, shown_cell, shown_floor, shown_upper, row_text, cell_text, objective_text, column_text, discrete_text, right_text, bound_text, rows_text, columns_text, rights_text, bounds_text};
ghost use Rattle.exporter.specs.Exports.{formed, Exports};

use rows::Bound;
use store::Row;

// The tables of n rows, of which the first `less` are those of `<=` and `>=`: their words, and the coefficients.
#[derive(Clone, Copy)]
struct Tables<'a> {
    slots: &'a [Row],
    counts: &'a [i64],
    less: usize,
    n: usize,
}

// ---- pieces

fn put_word(t: &[u8], out: &mut [u8], at: usize) -> usize
    requires { at < 2 ^ 40 }
    ensures { Written out.old at t.now result out.new }
{
    let from = listing::rest_from(out.len(), at);
    at + listing::text(t, &mut out[from..])
}

fn put_value(v: value::Value, out: &mut [u8], at: usize) -> usize
    requires { at < 2 ^ 40 }
    ensures { (Written out.old at (shown v) result out.new) × (result ≤ at + 32) }
{
    let from = listing::rest_from(out.len(), at);
    at + value::print(v, &mut out[from..])
}

// The number of a row or a variable.
fn put_number(n: usize, out: &mut [u8], at: usize) -> usize
    requires { (n ≤ 512) × (at < 2 ^ 40) }
    ensures { (Written out.old at (natural n) result out.new) × (result ≤ at + 32) }
{
    put_value(value::Value::from(n as i64), out, at)
}

// ---- lines

// A word and a number.
fn numbered(w: &[u8], n: usize, out: &mut [u8], at: usize) -> usize
    requires { (length w.now ≤ 16) × (n ≤ 512) × (at < 2 ^ 39) }
    ensures { (Written out.old at (w.now ++ natural n) result out.new) × (result ≤ at + 48) }
{
    let at = put_word(w, out, at);
    put_number(n, out, at)
}

// A word, a number and what follows them.
fn named_line(w: &[u8], n: usize, end: &[u8], out: &mut [u8], at: usize) -> usize
    requires { (length w.now ≤ 16) × (n ≤ 512) × (length end.now ≤ 16) × (at < 2 ^ 39) }
    ensures { (Written out.old at (named w.now n end.now) result out.new) × (result ≤ at + 64) }
{
    let at = numbered(w, n, out, at);
    put_word(end, out, at)
}

// The same, and a value and the line's end.
fn value_line(w: &[u8], n: usize, mid: &[u8], v: value::Value, out: &mut [u8], at: usize) -> usize
    requires { (length w.now ≤ 16) × (n ≤ 512) × (length mid.now ≤ 16) × (at < 2 ^ 39) }
    ensures { (Written out.old at (shown_line (named w.now n mid.now) v) result out.new) × (result ≤ at + 97) }
{
    let at = named_line(w, n, mid, out, at);
    let at = put_value(v, out, at);
    put_word(b"\n", out, at)
}

// ---- rows

// The floor of row i, if it is one of the first `less` and has one.
fn floor_at(t: Tables, i: usize) -> Option<value::Value>
    ensures { result ≡ floor_at t.entry.slots.now t.entry.less i }
{
    if i < t.less {
        return rows::floor_of(t.slots, i);
    }
    None
}

// The row that a floor adds, by its number.
fn floor_row(n: usize, floor: Option<value::Value>, out: &mut [u8], at: usize) -> usize
    requires { (n ≤ 512) × (at < 2 ^ 39) }
    ensures { (Written out.old at (floor_row n floor) result out.new) × (result ≤ at + 64) }
{
    match floor {
        None => at,
        Some(_) => named_line(b" G F", n, b"\n", out, at),
    }
}

// The line of row i, and that of its floor.
fn row_line(t: Tables, i: usize, out: &mut [u8], at: usize) -> usize
    requires { (i < 512) × (at < 2 ^ 38) }
    ensures { (Written out.old at (row_text t.entry.slots.now t.entry.less i) result out.new) × (result ≤ at + 128) }
{
    if i < t.less {
        let at = named_line(b" L R", i + 1, b"\n", out, at);
        return floor_row(i + 1, floor_at(t, i), out, at);
    }
    named_line(b" E R", i + 1, b"\n", out, at)
}

// The lines of n rows.
fn row_lines(t: Tables, out: &mut [u8], at: usize) -> usize
    requires { (t.n ≤ 512) × (at < 2 ^ 37) }
    ensures { (Written out.old at (text_from (row_text t.entry.slots.now t.entry.less) t.entry.n 0) result out.new) × (result ≤ at + 65536) }
{
    let mut next = at;
    for i in 0..t.n {
        next = row_line(t, i, out, next);
    }
    next
}

// From the first byte on: the first lines, and those of the rows.
fn rows_section(t: Tables, out: &mut [u8]) -> usize
    requires { t.n ≤ 512 }
    ensures { (Written out.old 0 (rows_text t.entry.slots.now t.entry.less t.entry.n) result out.new) × (result ≤ 65600) }
{
    let at = put_word(b"NAME MODEL\nROWS\n N OBJ\n", out, 0);
    row_lines(t, out, at)
}

// ---- coefficients

// The line of variable j in row i, or in its floor, by their numbers and the row's first word.
fn cell_line(j: usize, w: &[u8], i: usize, v: value::Value, out: &mut [u8], at: usize) -> usize
    requires { (j ≤ 512) × (length w.now ≤ 16) × (i ≤ 512) × (at < 2 ^ 38) }
    ensures { (Written out.old at (shown_line (cell_start j w.now i) v) result out.new) × (result ≤ at + 256) }
{
    let at = numbered(b" C", j, out, at);
    value_line(w, i, b" ", v, out, at)
}

// The same in a row and in its floor, if it has one.
fn cell_lines(
    j: usize,
    i: usize,
    v: value::Value,
    floor: Option<value::Value>,
    out: &mut [u8],
    at: usize,
) -> usize
    requires { (j ≤ 512) × (i ≤ 512) × (at < 2 ^ 37) }
    ensures { (Written out.old at (shown_twice j i v floor) result out.new) × (result ≤ at + 512) }
{
    let at = cell_line(j, b" R", i, v, out, at);
    match floor {
        None => at,
        Some(_) => cell_line(j, b" F", i, v, out, at),
    }
}

// A coefficient's lines, by its count of millionths; nothing for zero.
fn cell(j: usize, i: usize, z: i64, floor: Option<value::Value>, out: &mut [u8], at: usize) -> usize
    requires { (j ≤ 512) × (i ≤ 512) × (at < 2 ^ 37) }
    ensures { (Written out.old at (shown_cell j i (value_of z) floor) result out.new) × (result ≤ at + 512) }
{
    if z == 0 {
        return at;
    }
    let v = rows::value_of(z);
    if v.is_zero() {
        return at;
    }
    cell_lines(j, i, v, floor, out, at)
}

// The coefficients of variable j in n rows.
fn cells(t: Tables, j: usize, out: &mut [u8], at: usize) -> usize
    requires { (t.n ≤ 512) × (j < 512) × (at < 2 ^ 36) }
    ensures { (Written out.old at (text_from (cell_text t.entry.slots.now t.entry.counts.now t.entry.less j) t.entry.n 0) result out.new) × (result ≤ at + 262144) }
{
    let mut next = at;
    for i in 0..t.n {
        let z = rows::count_at(t.counts, rows::slot(t.less, i), j);
        let floor = floor_at(t, i);
        next = cell(j + 1, i + 1, z, floor, out, next);
    }
    next
}

// The coefficient of variable j in the objective, with its sign changed.
fn objective_line(counts: &[i64], j: usize, out: &mut [u8], at: usize) -> usize
    requires { (j < 512) × (at < 2 ^ 38) }
    ensures { (Written out.old at (objective_text counts.now j) result out.new) × (result ≤ at + 128) }
{
    let v = rows::value_of(rows::count_at(counts, rules::ROW_LIMIT, j));
    let opposite = -v;
    value_line(b" C", j + 1, b" OBJ ", opposite, out, at)
}

// The lines of variable j.
fn column(t: Tables, j: usize, out: &mut [u8], at: usize) -> usize
    requires { (t.n ≤ 512) × (j < 512) × (at < 2 ^ 36) }
    ensures { (Written out.old at (column_text t.entry.slots.now t.entry.counts.now t.entry.less t.entry.n j) result out.new) × (result ≤ at + 262272) }
{
    let at = cells(t, j, out, at);
    objective_line(t.counts, j, out, at)
}

// The lines of the variables from number `from` up to number `to`.
fn columns(t: Tables, from: usize, to: usize, out: &mut [u8], at: usize) -> usize
    requires { (t.n ≤ 512) × (from ≤ to) × (to ≤ 512) × (at < 2 ^ 35) }
    ensures { (Written out.old at (text_from (column_text t.entry.slots.now t.entry.counts.now t.entry.less t.entry.n) (to - from) from) result out.new) × (result ≤ at + 134283264) }
{
    let mut next = at;
    for j in from..to {
        next = column(t, j, out, next);
    }
    next
}

// The lines of k discrete variables, if there are any, between two markers.
fn discrete_columns(t: Tables, k: usize, out: &mut [u8], at: usize) -> usize
    requires { (t.n ≤ 512) × (k ≤ 512) × (at < 2 ^ 34) }
    ensures { (Written out.old at (discrete_text t.entry.slots.now t.entry.counts.now t.entry.less t.entry.n k) result out.new) × (result ≤ at + 134283364) }
{
    if k == 0 {
        return at;
    }
    let at = put_word(b" M 'MARKER' 'INTORG'\n", out, at);
    let at = columns(t, 0, k, out, at);
    put_word(b" M 'MARKER' 'INTEND'\n", out, at)
}

fn columns_section(t: Tables, discrete: usize, variables: usize, out: &mut [u8], at: usize) -> usize
    requires { (t.n ≤ 512) × (discrete ≤ variables) × (variables ≤ 512) × (at < 2 ^ 33) }
    ensures { (Written out.old at (columns_text t.entry.slots.now t.entry.counts.now t.entry.less t.entry.n discrete variables) result out.new) × (result ≤ at + 2 ^ 29) }
{
    let at = put_word(b"COLUMNS\n", out, at);
    let at = discrete_columns(t, discrete, out, at);
    columns(t, discrete, variables, out, at)
}

// ---- right sides

// A floor's line, by its number.
fn floor_line(n: usize, floor: Option<value::Value>, out: &mut [u8], at: usize) -> usize
    requires { (n ≤ 512) × (at < 2 ^ 39) }
    ensures { (Written out.old at (shown_floor n floor) result out.new) × (result ≤ at + 128) }
{
    match floor {
        None => at,
        Some(v) => value_line(b" MODEL F", n, b" ", v, out, at),
    }
}

// The right side of row i, and its floor.
fn right_line(t: Tables, i: usize, out: &mut [u8], at: usize) -> usize
    requires { (i < 512) × (at < 2 ^ 38) }
    ensures { (Written out.old at (right_text t.entry.slots.now t.entry.less i) result out.new) × (result ≤ at + 256) }
{
    let v = store::unpack(store::word_at(t.slots, rows::slot(t.less, i)));
    let at = value_line(b" MODEL R", i + 1, b" ", v, out, at);
    floor_line(i + 1, floor_at(t, i), out, at)
}

// The right sides and floors of n rows. A loop beside that of `row_lines`: a line that is handed over as a closure states its bounds again.
fn rights(t: Tables, out: &mut [u8], at: usize) -> usize
    requires { (t.n ≤ 512) × (at < 2 ^ 37) }
    ensures { (Written out.old at (text_from (right_text t.entry.slots.now t.entry.less) t.entry.n 0) result out.new) × (result ≤ at + 131072) }
{
    let mut next = at;
    for i in 0..t.n {
        next = right_line(t, i, out, next);
    }
    next
}

fn rights_section(t: Tables, out: &mut [u8], at: usize) -> usize
    requires { (t.n ≤ 512) × (at < 2 ^ 36) }
    ensures { (Written out.old at (rights_text t.entry.slots.now t.entry.less t.entry.n) result out.new) × (result ≤ at + 131080) }
{
    let at = put_word(b"RHS\n", out, at);
    rights(t, out, at)
}

// ---- bounds

fn upper_line(j: usize, upper: Option<value::Value>, out: &mut [u8], at: usize) -> usize
    requires { (j ≤ 512) × (at < 2 ^ 38) }
    ensures { (Written out.old at (shown_upper j upper) result out.new) × (result ≤ at + 128) }
{
    match upper {
        None => named_line(b" PL MODEL C", j, b"\n", out, at),
        Some(v) => value_line(b" UP MODEL C", j, b" ", v, out, at),
    }
}

// The two lines of variable j.
fn bound_lines(bounds: &[Bound], j: usize, out: &mut [u8], at: usize) -> usize
    requires { (j < 512) × (at < 2 ^ 37) }
    ensures { (Written out.old at (bound_text bounds.now j) result out.new) × (result ≤ at + 256) }
{
    let lower = rows::lower_of(bounds, j);
    let upper = rows::upper_of(bounds, j);
    let at = value_line(b" LO MODEL C", j + 1, b" ", lower, out, at);
    upper_line(j + 1, upper, out, at)
}

// The bounds of n variables.
fn all_bounds(bounds: &[Bound], n: usize, out: &mut [u8], at: usize) -> usize
    requires { (n ≤ 512) × (at < 2 ^ 36) }
    ensures { (Written out.old at (text_from (bound_text bounds.now) n 0) result out.new) × (result ≤ at + 131072) }
{
    let mut next = at;
    for j in 0..n {
        next = bound_lines(bounds, j, out, next);
    }
    next
}

fn bounds_section(bounds: &[Bound], n: usize, out: &mut [u8], at: usize) -> usize
    requires { (n ≤ 512) × (at < 2 ^ 35) }
    ensures { Written out.old at (bounds_text bounds.now n) result out.new }
{
    let at = put_word(b"BOUNDS\n", out, at);
    let at = all_bounds(bounds, n, out, at);
    put_word(b"ENDATA\n", out, at)
}

// ---- the export

// Are the sizes those of a problem?
fn is_formed(sizes: rows::Sizes) -> bool
    ensures { result ≡ formed sizes }
{
    let discrete = sizes.discrete;
    let variables = sizes.variables;
    (discrete <= variables) & rows::is_within(sizes)
}

// The export of a problem, from the output's first byte on, and its length. Nothing is written where a number is past its limit.
pub fn write(
    slots: &[Row],
    bounds: &[Bound],
    counts: &[i64],
    sizes: rows::Sizes,
    out: &mut [u8],
) -> usize
    ensures { Exports slots.now bounds.now counts.now sizes out.old result out.new }
{
    if !is_formed(sizes) {
        return 0;
    }
    let t = Tables {
        slots,
        counts,
        less: sizes.less,
        n: sizes.less + sizes.equal,
    };
    let at = rows_section(t, out);
    let at = columns_section(t, sizes.discrete, sizes.variables, out, at);
    let at = rights_section(t, out, at);
    bounds_section(bounds, sizes.variables, out, at)
}
