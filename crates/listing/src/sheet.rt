// The listing of a problem, written from its tables. Each line is written from the byte where the last one ended, as far as the
// output reaches; the listing's length is given whether or not the output reaches that far.
// What writes takes the output and a place in it, and gives the place behind what it wrote: document 01 names this form, where the rest of
// the output is lent to the writer of a line.
ghost use Rattle.std.specs.Prelude.{◌≡◌, cond, ◌+◌, ◌<◌, ◌≤◌, ◌^◌, length};
ghost use Rattle.value.specs.Printed.{Written};
ghost use Rattle.lexer.specs.View.{part_of};
ghost use Rattle.language.specs.Listing.{lp_line, col_line, ending_line, kind_by, low_lines};
ghost use Rattle.language.specs.Listing as Listing;
ghost use Rattle.listing.specs.Shown.{shown_line, shown_lines};
ghost use Rattle.rows.specs.Read.{value_of};
ghost use Rattle.listing.specs.Kinds.{kind_in};
ghost use Rattle.listing.specs.Sheet.Columns.{cell_lines, column_from, columns_from};
ghost use Rattle.listing.specs.Sheet.Strings.{name_at, string_at, title_of, within};
ghost use Rattle.listing.specs.Sheet.Told.{RowAlone, RowTold, VariableTold, Writes, WritesAll};
ghost use Rattle.listing.specs.Sheet.Shown.{Lists};
ghost use Rattle.tokens.specs.Text.{In};

use constraints::Record;
use evaluator::steps::names;
use rows::Bound;
use store::Row;
use tokens::Text;

// Whether a text of n bytes and a problem of these sizes are within the limits.
fn is_within(n: usize, sizes: rows::Sizes) -> bool
    ensures { result ≡ within n sizes }
{
    (n <= rules::BYTE_LIMIT) & rows::is_within(sizes)
}

// ---- words, names and strings

// The name of a number.
fn name_of<'a>(text: &'a [u8], names: &[u64], i: usize) -> &'a [u8]
    ensures { result.now ≡ name_at text.now names.now i }
{
    let place = names::word_of(names, i, 0);
    let bytes = names::word_of(names, i, 1);
    lexer::part(text, place as usize, bytes as usize)
}

// The string whose token stands at a position.
fn string_at<'a>(text: &'a [u8], tokens: &[u64], at: usize) -> &'a [u8]
    ensures { result.now ≡ string_at text.now tokens.now at }
{
    let w = rows::word(tokens, at);
    let place = w / tokens::PLACE_UNIT % tokens::PLACES;
    let bytes = w % tokens::PLACE_UNIT;
    lexer::part(text, place as usize + 1, bytes as usize)
}

// The string of the constraint of a number.
fn title_of<'a>(text: &'a [u8], tokens: &[u64], table: &[Record], i: usize) -> &'a [u8]
    ensures { result.now ≡ title_of text.now tokens.now table.now i }
{
    let row = constraints::row_at(table, i);
    string_at(text, tokens, row.title)
}

// ---- the first line and the last

fn first_line(
    text: &[u8],
    tokens: &[u64],
    sizes: rows::Sizes,
    title: usize,
    data_place: u64,
    data_bytes: u64,
    out: &mut [u8],
) -> usize
    requires { (length text.now ≤ 16384) × (sizes.less + sizes.equal ≤ 512) }
    ensures { (Written out.old 0 (shown_line (lp_line sizes.discrete sizes.variables sizes.less (sizes.less + sizes.equal) (string_at text.now tokens.now title) (part_of text.now data_place data_bytes))) result out.new) × (result ≤ 32896) }
{
    let rows = sizes.less + sizes.equal;
    let model = string_at(text, tokens, title);
    let data = lexer::part(text, data_place as usize, data_bytes as usize);
    super::lp(
        sizes.discrete,
        sizes.variables,
        sizes.less,
        rows,
        model,
        data,
        out,
    )
}

fn last_line(out: &mut [u8], at: usize) -> usize
    requires { at < 2 ^ 40 }
    ensures { Written out.old at (shown_line ending_line) result out.new }
{
    let from = super::rest_from(out.len(), at);
    at + super::end(&mut out[from..])
}

// ---- rows

// The kind of a row, by whether it is one of `=`, which is data and not a step, and by its floor.
pub fn kind_of(equal: bool, floor: Option<value::Value>) -> super::Kind
    ensures { kind_in result ≡ cond equal Listing.equal (kind_by floor) }
{
    if equal {
        return super::Kind::Equal;
    }
    match floor {
        None => super::Kind::Less,
        Some(v) => super::Kind::Range,
    }
}

// The line of a floor, if there is one.
fn floor_line(row: usize, floor: Option<value::Value>, out: &mut [u8], at: usize) -> usize
    requires { at < 2 ^ 41 }
    ensures { (Written out.old at (shown_lines (low_lines row floor)) result out.new) × (result ≤ at + 128) }
{
    let from = super::rest_from(out.len(), at);
    at + super::low(row, floor, &mut out[from..])
}

// The line of the row in slot k, of a number and a kind, without its floor's.
fn row_alone(
    text: &[u8],
    tokens: &[u64],
    constraints: &[Record],
    rows: &[Row],
    k: usize,
    number: usize,
    kind: super::Kind,
    out: &mut [u8],
    at: usize,
) -> usize
    requires { (length text.now ≤ 16384) × (at < 2 ^ 40) }
    ensures { Writes 32000 (RowAlone text.now tokens.now constraints.now rows.now k number (kind_in kind)) out.old at result out.new }
{
    let right = store::unpack(store::word_at(rows, k));
    let title = title_of(text, tokens, constraints, store::name_at(rows, k));
    let e = store::element_at(rows, k);
    let from = super::rest_from(out.len(), at);
    at + super::row(number, kind, right, title, e, &mut out[from..])
}

// The lines of row i: its own, and that of its floor.
fn row_line(
    text: &[u8],
    tokens: &[u64],
    constraints: &[Record],
    rows: &[Row],
    less: usize,
    i: usize,
    out: &mut [u8],
    at: usize,
) -> usize
    requires { (length text.now ≤ 16384) × (i < 512) × (at < 2 ^ 40) }
    ensures { Writes 32768 (RowTold text.now tokens.now constraints.now rows.now less i) out.old at result out.new }
{
    let k = rows::slot(less, i);
    let floor = rows::floor_of(rows, k);
    let kind = kind_of(less <= i, floor);
    let next = row_alone(text, tokens, constraints, rows, k, i + 1, kind, out, at);
    floor_line(i + 1, floor, out, next)
}

// The lines of n rows, of which the first `less` are those of `<=` and `>=`.
fn row_lines(
    text: &[u8],
    tokens: &[u64],
    constraints: &[Record],
    rows: &[Row],
    less: usize,
    n: usize,
    out: &mut [u8],
    at: usize,
) -> usize
    requires { (length text.now ≤ 16384) × (n ≤ 512) × (at < 2 ^ 38) }
    ensures { WritesAll (RowTold text.now tokens.now constraints.now rows.now less) n out.old at result out.new }
{
    let mut next = at;
    for i in 0..n {
        next = row_line(text, tokens, constraints, rows, less, i, out, next);
    }
    next
}

// ---- variables

fn variable_line(
    text: &[u8],
    names: &[u64],
    variables: &[Row],
    bounds: &[Bound],
    discrete: usize,
    j: usize,
    out: &mut [u8],
    at: usize,
) -> usize
    requires { (length text.now ≤ 16384) × (j < 512) × (at < 2 ^ 40) }
    ensures { Writes 32768 (VariableTold text.now names.now variables.now bounds.now discrete j) out.old at result out.new }
{
    let lower = rows::lower_of(bounds, j);
    let upper = rows::upper_of(bounds, j);
    let name = name_of(text, names, store::name_at(variables, j));
    let e = store::element_at(variables, j);
    let from = super::rest_from(out.len(), at);
    at + super::variable(j + 1, j < discrete, lower, upper, name, e, &mut out[from..])
}

// The lines of n variables. A loop beside that of `row_lines`: a line that is handed over as a closure states its bounds again.
fn variable_lines(
    text: &[u8],
    names: &[u64],
    variables: &[Row],
    bounds: &[Bound],
    discrete: usize,
    n: usize,
    out: &mut [u8],
    at: usize,
) -> usize
    requires { (length text.now ≤ 16384) × (n ≤ 512) × (at < 2 ^ 38) }
    ensures { WritesAll (VariableTold text.now names.now variables.now bounds.now discrete) n out.old at result out.new }
{
    let mut next = at;
    for j in 0..n {
        next = variable_line(text, names, variables, bounds, discrete, j, out, next);
    }
    next
}

// ---- coefficients

fn column_line(variable: usize, row: usize, v: value::Value, out: &mut [u8], at: usize) -> usize
    requires { at < 2 ^ 40 }
    ensures { (Written out.old at (shown_line (col_line variable row v)) result out.new) × (result ≤ at + 128) }
{
    let from = super::rest_from(out.len(), at);
    at + super::column(variable, row, v, &mut out[from..])
}

// A coefficient's line, by its count of millionths; nothing for zero.
fn cell(variable: usize, row: usize, z: i64, out: &mut [u8], at: usize) -> usize
    requires { at < 2 ^ 40 }
    ensures { (Written out.old at (shown_lines (cell_lines variable row (value_of z))) result out.new) × (result ≤ at + 128) }
{
    if z == 0 {
        return at;
    }
    let v = rows::value_of(z);
    if v.is_zero() {
        return at;
    }
    column_line(variable, row, v, out, at)
}

// The lines of variable j.
fn column(matrix: &[i64], less: usize, rows: usize, j: usize, out: &mut [u8], at: usize) -> usize
    requires { (rows ≤ 512) × (j < 512) × (at < 2 ^ 39) }
    ensures { (Written out.old at (shown_lines (column_from matrix.now less j rows 0)) result out.new) × (result ≤ at + 65664) }
{
    let mut next = at;
    for i in 0..rows {
        let k = rows::slot(less, i);
        next = cell(j + 1, i + 1, rows::count_at(matrix, k, j), out, next);
    }
    let v = rows::value_of(rows::count_at(matrix, rules::ROW_LIMIT, j));
    column_line(j + 1, rows + 1, v, out, next)
}

// The lines of all variables.
fn columns(
    matrix: &[i64],
    less: usize,
    rows: usize,
    variables: usize,
    out: &mut [u8],
    at: usize,
) -> usize
    requires { (rows ≤ 512) × (variables ≤ 512) × (at < 2 ^ 38) }
    ensures { (Written out.old at (shown_lines (columns_from matrix.now less rows variables 0)) result out.new) × (result ≤ at + 33619968) }
{
    let mut next = at;
    for j in 0..variables {
        next = column(matrix, less, rows, j, out, next);
    }
    next
}

// ---- the listing

// The listing of a problem, from the output's first byte on, and its length: the first line with the strings of the model (the
// position of its token) and of its data (its place and number of bytes), the lines of rows, of variables and of coefficients, and
// the last line. Nothing is written where a number is past its limit.
pub fn write(
    text: Text<'_>,
    constraints: &[Record],
    variables: &[Row],
    rows: &[Row],
    bounds: &[Bound],
    matrix: &[i64],
    sizes: rows::Sizes,
    title: usize,
    data_place: u64,
    data_bytes: u64,
    out: &mut [u8],
) -> usize
    ensures { In Lists text.entry constraints.now variables.now rows.now bounds.now matrix.now sizes title data_place data_bytes out.old result out.new }
{
    if !is_within(text.bytes.len(), sizes) {
        return 0;
    }
    let less = sizes.less;
    let all = less + sizes.equal;
    let count = sizes.variables;
    let at = first_line(
        text.bytes,
        text.tokens,
        sizes,
        title,
        data_place,
        data_bytes,
        out,
    );
    let at = row_lines(
        text.bytes,
        text.tokens,
        constraints,
        rows,
        less,
        all,
        out,
        at,
    );
    let at = variable_lines(
        text.bytes,
        text.names,
        variables,
        bounds,
        sizes.discrete,
        count,
        out,
        at,
    );
    let at = columns(matrix, less, all, count, out, at);
    last_line(out, at)
}
