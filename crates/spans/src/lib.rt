// The report of how far the rows of a problem can reach, written from its tables. Each line is written from the byte where the last one
// ended, as far as the output reaches; the report's length is given whether or not the output reaches that far.
// What writes takes the output and a place in it, and gives the place behind what it wrote: document 01 names this form, where the rest of
// the output is lent to the writer of a line.
#![tactic(auto)]

ghost use Rattle.std.specs.Prelude.{◌≡◌, ◌+◌, ◌<◌, ◌≤◌, ◌^◌};
ghost use Rattle.value.specs.Printed.{Written};
ghost use Rattle.language.specs.Listing.{ending_line};
ghost use Rattle.listing.specs.Shown.{shown_line};
ghost use Rattle.listing.specs.Kinds.{kind_in};
ghost use Rattle.listing.specs.Spans.{shown_span};
ghost use Rattle.spans.specs.Told.{idle_in, span_text, RowWritten, RowsWritten, Reports};

use listing::Kind;
use reach::End;
use rows::Bound;
use store::Row;

// Is the greatest value of a row no more than its right side?
fn is_idle(greatest: Option<value::Value>, right: value::Value) -> bool
    ensures { result ≡ idle_in greatest right }
{
    match greatest {
        None => false,
        Some(v) => v.at_most(right),
    }
}

fn put_span(
    number: usize,
    least: Option<value::Value>,
    greatest: Option<value::Value>,
    idle: bool,
    out: &mut [u8],
    at: usize,
) -> usize
    requires { at < 2 ^ 40 }
    ensures { (Written out.old at (shown_span number least greatest idle) result out.new) × (result ≤ at + 128) }
{
    let from = listing::rest_from(out.len(), at);
    at + listing::span(number, least, greatest, idle, &mut out[from..])
}

// The line of a row of a kind; nothing for one with a floor. The kind is data, not a step.
fn span_line(
    kind: Kind,
    number: usize,
    least: Option<value::Value>,
    greatest: Option<value::Value>,
    right: value::Value,
    out: &mut [u8],
    at: usize,
) -> usize
    requires { at < 2 ^ 40 }
    ensures { (Written out.old at (span_text (kind_in kind) number least greatest right) result out.new) × (result ≤ at + 128) }
{
    match kind {
        Kind::Less => put_span(number, least, greatest, is_idle(greatest, right), out, at),
        Kind::Equal => put_span(number, least, greatest, false, out, at),
        Kind::Range => at,
    }
}

// The line of row i, of which the first `less` are those of `<=` and `>=`, over n variables.
fn row_line(
    slots: &[Row],
    bounds: &[Bound],
    counts: &[i64],
    less: usize,
    n: usize,
    i: usize,
    out: &mut [u8],
    at: usize,
) -> usize
    requires { (i < 512) × (at < 2 ^ 40) }
    ensures { RowWritten slots.now bounds.now counts.now less n i out.old at result out.new }
{
    let k = rows::slot(less, i);
    let kind = listing::sheet::kind_of(less <= i, rows::floor_of(slots, k));
    let least = reach::end_of(counts, bounds, k, n, End::Least);
    let greatest = reach::end_of(counts, bounds, k, n, End::Greatest);
    let right = store::unpack(store::word_at(slots, k));
    span_line(kind, i + 1, least, greatest, right, out, at)
}

// The lines of all rows, so many.
fn row_lines(
    slots: &[Row],
    bounds: &[Bound],
    counts: &[i64],
    less: usize,
    n: usize,
    size: usize,
    out: &mut [u8],
    at: usize,
) -> usize
    requires { (size ≤ 512) × (at < 2 ^ 38) }
    ensures { RowsWritten slots.now bounds.now counts.now less n size out.old at result out.new }
{
    let mut next = at;
    for i in 0..size {
        next = row_line(slots, bounds, counts, less, n, i, out, next);
    }
    next
}

fn last_line(out: &mut [u8], at: usize) -> usize
    requires { at < 2 ^ 40 }
    ensures { Written out.old at (shown_line ending_line) result out.new }
{
    let from = listing::rest_from(out.len(), at);
    at + listing::end(&mut out[from..])
}

// The report of a problem, from the output's first byte on, and its length. Nothing is written where a number is past its limit.
pub fn write(
    slots: &[Row],
    bounds: &[Bound],
    counts: &[i64],
    sizes: rows::Sizes,
    out: &mut [u8],
) -> usize
    ensures { Reports slots.now bounds.now counts.now sizes out.old result out.new }
{
    if !rows::is_within(sizes) {
        return 0;
    }
    let less = sizes.less;
    let size = less + sizes.equal;
    let at = row_lines(slots, bounds, counts, less, sizes.variables, size, out, 0);
    last_line(out, at)
}
