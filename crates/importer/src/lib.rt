// The reader of an export: the listing's lines of rows, floors, variables and coefficients without strings, names and index values, or that
// the text is no export. Each line is awaited, so the text is stripped of it; all that is kept is which rows have a floor. A position in the
// text is at most its length.
// What writes takes the output and a place in it, and gives the place behind what it wrote: document 01 names this form, where the rest of
// the output is lent to the writer of a line.
#![tactic(auto)]

ghost use Rattle.std.specs.Prelude.{◌≡◌, false, cond, [], ◌∷◌, ◌+◌, ◌*◌, ◌<◌, ◌≤◌, ◌^◌, length, get_or};
ghost use Rattle.value.specs.Decimal.{Valid, is_zero};
ghost use Rattle.value.specs.Printed.{natural, shown, Written};
ghost use Rattle.value.proofs.ReadBack.{read_back};
ghost use Rattle.lexer.specs.Text.{same_bytes};
ghost use Rattle.language.specs.Listing.{low_lines, col_line};
ghost use Rattle.listing.specs.Shown.{shown_line, shown_lines};
ghost use Rattle.listing.specs.Kinds.{kind_in};
ghost use Rattle.listing.specs.Bare.{bare_row, bare_variable};
ghost use Rattle.mps.specs.Export.{named as namedBytes};
ghost use Rattle.mps.specs.Reading.{read_value, line_value, read_column, read_columns, read_discrete, read_upper};
ghost use Rattle.importer.specs.Sections.{read_each, bytes_each, head_of, again_line, cell_at, cell_bytes, column_bytes, floor_at, side_shown, side_at, side_bytes, bounds_at, bounds_bytes, rights_part, bounds_part, sides_part, sides_bytes};
ghost use Rattle.importer.specs.Reads.{ReadsFrom, Reads};
ghost use Rattle.importer.specs.Steps.{Strips, LineEnds, Finds, Lists, Counts, Opens, Walks, WalksColumns, WalksMatrix, FindsEnd, FindsBounds};

// An export's text, how many rows it has, and which of those of `<=` and `>=` have a floor.
#[derive(Clone, Copy)]
struct Export<'a> {
    text: &'a [u8],
    floors: &'a [bool],
    rows: usize,
}

// The rows that were counted, and where the text goes on.
#[derive(Clone, Copy)]
struct Count {
    rows: usize,
    at: usize,
}

// Where the columns begin, and the rows of either kind.
#[derive(Clone, Copy)]
struct RowsRead {
    next: usize,
    less: usize,
    equal: usize,
}

// Where the text goes on behind columns that were read, the place of the output behind what was written, and how many they were.
#[derive(Clone, Copy)]
struct ColumnsRead {
    next: usize,
    place: usize,
    columns: usize,
}

// The same, with the whole variables and with all variables.
#[derive(Clone, Copy)]
struct MatrixRead {
    next: usize,
    place: usize,
    discrete: usize,
    total: usize,
}

// A variable's bounds, and where the text goes on.
#[derive(Clone, Copy)]
struct Limits {
    lower: value::Value,
    upper: Option<value::Value>,
    next: usize,
}

// ---- words and numbers

fn strip(text: &[u8], at: usize, word: &[u8]) -> Option<usize>
    requires { at ≤ length text.now }
    ensures { Strips word.now text.now at result }
{
    if text[at..].starts_with(word) {
        return Some(at + word.len());
    }
    None
}

// The print of a value.
fn strip_print(text: &[u8], at: usize, v: value::Value) -> Option<usize>
    requires { at ≤ length text.now }
    ensures { Strips (shown v) text.now at result }
{
    let mut digits = [0u8; 32];
    let k = value::print(v, &mut digits);
    strip(text, at, &digits[..k])
}

fn strip_number(text: &[u8], at: usize, n: usize) -> Option<usize>
    requires { (at ≤ length text.now) × (n < 1024) }
    ensures { Strips (natural n) text.now at result }
{
    strip_print(text, at, value::Value::from(n as i64))
}

// A word, a number and a second word.
fn named(text: &[u8], at: usize, word: &[u8], n: usize, tail: &[u8]) -> Option<usize>
    requires { (at ≤ length text.now) × (n < 1024) }
    ensures { Strips (namedBytes word.now n tail.now) text.now at result }
{
    let next = strip(text, at, word)?;
    let next = strip_number(text, next, n)?;
    strip(text, next, tail)
}

// The start of a coefficient's line, in a row or in its floor.
fn cell_head(text: &[u8], at: usize, variable: usize, word: &[u8], row: usize) -> Option<usize>
    requires { (at ≤ length text.now) × (variable < 1024) × (row < 1024) }
    ensures { Strips (head_of variable word.now row) text.now at result }
{
    let next = named(text, at, b" C", variable, word)?;
    let next = strip_number(text, next, row)?;
    strip(text, next, b" ")
}

// ---- values

// Where the line ends.
fn line_end(text: &[u8], at: usize) -> usize
    requires { at ≤ length text.now }
    ensures { LineEnds text.now at result }
{
    for i in at..text.len() {
        if text[i] == b'\n' {
            return i;
        }
    }
    text.len()
}

// A literal, or a `-` and a literal.
fn signed(t: &[u8]) -> Option<value::Value>
    ensures { result ≡ read_back t.now }
{
    let Some(digits) = t.strip_prefix(b"-") else {
        return value::literal(t);
    };
    let v = value::literal(digits)?;
    Some(-v)
}

// Are these bytes what a value prints as?
fn is_print(t: &[u8], v: value::Value) -> bool
    ensures { result ≡ same_bytes (shown v) t.now }
{
    match strip_print(t, 0, v) {
        Some(next) => t.len() <= next,
        None => false,
    }
}

// A value as it is printed, and the line feed behind it.
fn read_value(text: &[u8], at: usize) -> Option<(value::Value, usize)>
    requires { at ≤ length text.now }
    ensures { Finds read_value text.now at result }
{
    let end = line_end(text, at);
    let t = &text[at..end];
    let v = signed(t)?;
    if !is_print(t, v) {
        return None;
    }
    let next = strip(text, end, b"\n")?;
    Some((v, next))
}

// A line that ends with a value: a word, a number, a second word, the value.
fn line_value(
    text: &[u8],
    at: usize,
    word: &[u8],
    n: usize,
    tail: &[u8],
) -> Option<(value::Value, usize)>
    requires { (at ≤ length text.now) × (n < 1024) }
    ensures { Finds (line_value (namedBytes word.now n tail.now)) text.now at result }
{
    let next = named(text, at, word, n, tail)?;
    read_value(text, next)
}

// ---- rows

// The lines of rows of `<=` and `>=`, counted; whether each has a floor is put down.
fn less_rows(text: &[u8], at: usize, floors: &mut [bool]) -> Count
    requires { (at ≤ length text.now) × (512 ≤ length floors.old) }
    ensures { Lists text.now at result floors.new }
{
    let mut next = at;
    for k in 0..rules::ROW_LIMIT {
        let Some(n) = named(text, next, b" L R", k + 1, b"\n") else {
            return Count { rows: k, at: next };
        };
        let floor = named(text, n, b" G F", k + 1, b"\n");
        floors[k] = floor.is_some();
        next = floor.unwrap_or(n);
    }
    Count {
        rows: rules::ROW_LIMIT,
        at: next,
    }
}

// The lines of rows of `=`, from row `from` + 1 on, counted, at most so many.
fn equal_rows(text: &[u8], at: usize, from: usize, limit: usize) -> Count
    requires { (at ≤ length text.now) × (from + limit ≤ 512) }
    ensures { Counts text.now at from limit result }
{
    let mut next = at;
    for k in 0..limit {
        let Some(n) = named(text, next, b" E R", from + k + 1, b"\n") else {
            return Count { rows: k, at: next };
        };
        next = n;
    }
    Count {
        rows: limit,
        at: next,
    }
}

// The text up to its columns.
fn opening(text: &[u8], floors: &mut [bool; 512]) -> Option<RowsRead>
    ensures { Opens text.now result floors.new }
{
    let at = strip(text, 0, b"NAME MODEL\nROWS\n N OBJ\n")?;
    let less = less_rows(text, at, floors);
    let equal = equal_rows(text, less.at, less.rows, rules::ROW_LIMIT - less.rows);
    let next = strip(text, equal.at, b"COLUMNS\n")?;
    Some(RowsRead {
        next,
        less: less.rows,
        equal: equal.rows,
    })
}

// Whether row i has a floor, by those of the rows of `<=` and `>=`.
fn has_floor(floors: &[bool], i: usize) -> bool
    ensures { result ≡ get_or floors.now i false }
{
    i < floors.len() && floors[i]
}

// ---- coefficients; i and j count rows and variables from 0

// A coefficient's line again, in the floor of its row, if this has one.
fn again(t: Export, at: usize, j: usize, i: usize, v: value::Value) -> Option<usize>
    requires { (at ≤ length t.text.now) × (j < 512) × (i < 512) × Valid v }
    ensures { Strips (again_line t.entry.floors.now j i v) t.entry.text.now at result }
{
    if !has_floor(t.floors, i) {
        return Some(at);
    }
    let next = cell_head(t.text, at, j + 1, b" F", i + 1)?;
    let next = strip_print(t.text, next, v)?;
    strip(t.text, next, b"\n")
}

// The coefficient of variable j in row i: 0 where its line is not here, and a line with a 0 is none.
fn cell_at(t: Export, at: usize, j: usize, i: usize) -> Option<(value::Value, usize)>
    requires { (at ≤ length t.text.now) × (j < 512) × (i < 512) }
    ensures { Finds (cell_at t.entry.floors.now j i) t.entry.text.now at result }
{
    let Some(next) = cell_head(t.text, at, j + 1, b" R", i + 1) else {
        return Some((value::Value::from(0), at));
    };
    let (v, next) = read_value(t.text, next)?;
    if v.is_zero() {
        return None;
    }
    let next = again(t, next, j, i, v)?;
    Some((v, next))
}

fn column_line(variable: usize, row: usize, v: value::Value, out: &mut [u8], place: usize) -> usize
    requires { place < 2 ^ 40 }
    ensures { (Written out.old place (shown_line (col_line variable row v)) result out.new) × (result ≤ place + 128) }
{
    let from = listing::rest_from(out.len(), place);
    place + listing::column(variable, row, v, &mut out[from..])
}

// Nothing for 0.
fn cell_line(variable: usize, row: usize, v: value::Value, out: &mut [u8], place: usize) -> usize
    requires { place < 2 ^ 40 }
    ensures { (Written out.old place (shown_lines (cond (is_zero v) [] (col_line variable row v ∷ []))) result out.new) × (result ≤ place + 128) }
{
    if v.is_zero() {
        return place;
    }
    column_line(variable, row, v, out, place)
}

fn cells(t: Export, at: usize, j: usize, out: &mut [u8], place: usize) -> Option<(usize, usize)>
    requires { (at ≤ length t.text.now) × (t.rows ≤ 512) × (j < 512) × (place < 2 ^ 39) }
    ensures { Walks (read_each (cell_at t.entry.floors.now j) t.entry.rows 0) (bytes_each (cell_bytes j) 0) (256 * t.entry.rows) t.entry.text.now at out.old place result out.new }
{
    let mut next = at;
    let mut to = place;
    for i in 0..t.rows {
        let (v, n) = cell_at(t, next, j, i)?;
        to = cell_line(j + 1, i + 1, v, out, to);
        next = n;
    }
    Some((next, to))
}

// The coefficients of variable j, and its objective coefficient, whose sign is changed again.
fn column(t: Export, at: usize, j: usize, out: &mut [u8], place: usize) -> Option<(usize, usize)>
    requires { (at ≤ length t.text.now) × (t.rows ≤ 512) × (j < 512) × (place < 2 ^ 39) }
    ensures { Walks (read_column t.entry.floors.now t.entry.rows j) (column_bytes j) 131328 t.entry.text.now at out.old place result out.new }
{
    let (next, to) = cells(t, at, j, out, place)?;
    let (v, next) = line_value(t.text, next, b" C", j + 1, b" OBJ ")?;
    let to = column_line(j + 1, t.rows + 1, -v, out, to);
    Some((next, to))
}

// Columns from variable `from` on, as far as their lines go, at most so many.
fn columns(
    t: Export,
    at: usize,
    from: usize,
    limit: usize,
    out: &mut [u8],
    place: usize,
) -> Option<ColumnsRead>
    requires { (at ≤ length t.text.now) × (t.rows ≤ 512) × (from + limit ≤ 512) × (place < 2 ^ 38) }
    ensures { WalksColumns (read_columns t.entry.floors.now t.entry.rows limit from) from limit t.entry.text.now at out.old place result out.new }
{
    let mut next = at;
    let mut to = place;
    for k in 0..limit {
        let Some(_) = strip(t.text, next, b" C") else {
            return Some(ColumnsRead {
                next,
                place: to,
                columns: k,
            });
        };
        let (n, p) = column(t, next, from + k, out, to)?;
        next = n;
        to = p;
    }
    Some(ColumnsRead {
        next,
        place: to,
        columns: limit,
    })
}

// Whole variables, if any, between their markers.
fn discrete(t: Export, at: usize, out: &mut [u8], place: usize) -> Option<ColumnsRead>
    requires { (at ≤ length t.text.now) × (t.rows ≤ 512) × (place < 2 ^ 37) }
    ensures { WalksColumns (read_discrete t.entry.floors.now t.entry.rows) 0 512 t.entry.text.now at out.old place result out.new }
{
    let Some(next) = strip(t.text, at, b" M 'MARKER' 'INTORG'\n") else {
        return Some(ColumnsRead {
            next: at,
            place,
            columns: 0,
        });
    };
    let read = columns(t, next, 0, rules::VARIABLE_LIMIT, out, place)?;
    if read.columns == 0 {
        return None;
    }
    let next = strip(t.text, read.next, b" M 'MARKER' 'INTEND'\n")?;
    Some(ColumnsRead {
        next,
        place: read.place,
        columns: read.columns,
    })
}

// All columns.
fn matrix(t: Export, at: usize, out: &mut [u8], place: usize) -> Option<MatrixRead>
    requires { (at ≤ length t.text.now) × (t.rows ≤ 512) × (place < 2 ^ 36) }
    ensures { WalksMatrix t.entry.floors.now t.entry.rows t.entry.text.now at out.old place result out.new }
{
    let whole = discrete(t, at, out, place)?;
    let d = whole.columns;
    let limit = rules::VARIABLE_LIMIT - d;
    let other = columns(t, whole.next, d, limit, out, whole.place)?;
    Some(MatrixRead {
        next: other.next,
        place: other.place,
        discrete: d,
        total: d + other.columns,
    })
}

// ---- right sides

// The floor of row i, if it has one.
fn floor_at(t: Export, at: usize, i: usize) -> Option<(Option<value::Value>, usize)>
    requires { (at ≤ length t.text.now) × (i < 512) }
    ensures { FindsEnd (floor_at t.entry.floors.now i) t.entry.text.now at result }
{
    if !has_floor(t.floors, i) {
        return Some((None, at));
    }
    let (v, next) = line_value(t.text, at, b" MODEL F", i + 1, b" ")?;
    Some((Some(v), next))
}

fn row_line(
    number: usize,
    kind: listing::Kind,
    v: value::Value,
    out: &mut [u8],
    place: usize,
) -> usize
    requires { place < 2 ^ 40 }
    ensures { (Written out.old place (bare_row number (kind_in kind) v) result out.new) × (result ≤ place + 128) }
{
    let from = listing::rest_from(out.len(), place);
    place + listing::bare::row(number, kind, v, &mut out[from..])
}

// Nothing where there is no floor.
fn low_line(row: usize, floor: Option<value::Value>, out: &mut [u8], place: usize) -> usize
    requires { place < 2 ^ 41 }
    ensures { (Written out.old place (shown_lines (low_lines row floor)) result out.new) × (result ≤ place + 128) }
{
    let from = listing::rest_from(out.len(), place);
    place + listing::low(row, floor, &mut out[from..])
}

// A row's line, and its floor's. `equal` is the row's relation: data, not a step.
fn side_lines(
    number: usize,
    equal: bool,
    v: value::Value,
    floor: Option<value::Value>,
    out: &mut [u8],
    place: usize,
) -> usize
    requires { place < 2 ^ 40 }
    ensures { (Written out.old place (side_shown number equal v floor) result out.new) × (result ≤ place + 256) }
{
    let kind = listing::sheet::kind_of(equal, floor);
    let next = row_line(number, kind, v, out, place);
    low_line(number, floor, out, next)
}

fn rights(t: Export, at: usize, out: &mut [u8], place: usize) -> Option<(usize, usize)>
    requires { (at ≤ length t.text.now) × (t.rows ≤ 512) × (place < 2 ^ 39) }
    ensures { Walks (read_each (side_at t.entry.floors.now) t.entry.rows 0) (bytes_each (side_bytes (length t.entry.floors.now)) 0) (256 * t.entry.rows) t.entry.text.now at out.old place result out.new }
{
    let mut next = at;
    let mut to = place;
    for i in 0..t.rows {
        let (v, n) = line_value(t.text, next, b" MODEL R", i + 1, b" ")?;
        let (floor, n) = floor_at(t, n, i)?;
        to = side_lines(i + 1, t.floors.len() <= i, v, floor, out, to);
        next = n;
    }
    Some((next, to))
}

fn rights_part(t: Export, at: usize, out: &mut [u8], place: usize) -> Option<(usize, usize)>
    requires { (at ≤ length t.text.now) × (t.rows ≤ 512) × (place < 2 ^ 39) }
    ensures { Walks (rights_part t.entry.floors.now t.entry.rows) (bytes_each (side_bytes (length t.entry.floors.now)) 0) 131072 t.entry.text.now at out.old place result out.new }
{
    let next = strip(t.text, at, b"RHS\n")?;
    rights(t, next, out, place)
}

// ---- bounds

fn upper_at(text: &[u8], at: usize, number: usize) -> Option<(Option<value::Value>, usize)>
    requires { (at ≤ length text.now) × (number < 1024) }
    ensures { FindsEnd (read_upper number) text.now at result }
{
    if let Some(next) = named(text, at, b" PL MODEL C", number, b"\n") {
        return Some((None, next));
    }
    let (v, next) = line_value(text, at, b" UP MODEL C", number, b" ")?;
    Some((Some(v), next))
}

fn bounds_at(text: &[u8], at: usize, j: usize) -> Option<Limits>
    requires { (at ≤ length text.now) × (j < 512) }
    ensures { FindsBounds (bounds_at j) text.now at result }
{
    let (lower, next) = line_value(text, at, b" LO MODEL C", j + 1, b" ")?;
    let (upper, next) = upper_at(text, next, j + 1)?;
    Some(Limits { lower, upper, next })
}

fn variable_line(
    number: usize,
    discrete: bool,
    lower: value::Value,
    upper: Option<value::Value>,
    out: &mut [u8],
    place: usize,
) -> usize
    requires { place < 2 ^ 40 }
    ensures { (Written out.old place (bare_variable number discrete lower upper) result out.new) × (result ≤ place + 128) }
{
    let from = listing::rest_from(out.len(), place);
    place + listing::bare::variable(number, discrete, lower, upper, &mut out[from..])
}

fn bounds(
    text: &[u8],
    at: usize,
    discrete: usize,
    variables: usize,
    out: &mut [u8],
    place: usize,
) -> Option<(usize, usize)>
    requires { (at ≤ length text.now) × (variables ≤ 512) × (place < 2 ^ 39) }
    ensures { Walks (read_each bounds_at variables 0) (bytes_each (bounds_bytes discrete) 0) (256 * variables) text.now at out.old place result out.new }
{
    let mut next = at;
    let mut to = place;
    for j in 0..variables {
        let limits = bounds_at(text, next, j)?;
        to = variable_line(j + 1, j < discrete, limits.lower, limits.upper, out, to);
        next = limits.next;
    }
    Some((next, to))
}

fn bounds_part(
    text: &[u8],
    at: usize,
    discrete: usize,
    variables: usize,
    out: &mut [u8],
    place: usize,
) -> Option<(usize, usize)>
    requires { (at ≤ length text.now) × (variables ≤ 512) × (place < 2 ^ 39) }
    ensures { Walks (bounds_part variables) (bytes_each (bounds_bytes discrete) 0) 131072 text.now at out.old place result out.new }
{
    let next = strip(text, at, b"BOUNDS\n")?;
    let (next, to) = bounds(text, next, discrete, variables, out, place)?;
    let next = strip(text, next, b"ENDATA\n")?;
    Some((next, to))
}

// ---- the whole text

// What stands behind the columns.
fn ending(
    t: Export,
    at: usize,
    discrete: usize,
    variables: usize,
    out: &mut [u8],
) -> Option<(usize, usize)>
    requires { (at ≤ length t.text.now) × (t.rows ≤ 512) × (variables ≤ 512) }
    ensures { Walks (sides_part t.entry.floors.now t.entry.rows variables) (sides_bytes (length t.entry.floors.now) discrete) 262144 t.entry.text.now at out.old 0 result out.new }
{
    let (next, to) = rights_part(t, at, out, 0)?;
    bounds_part(t.text, next, discrete, variables, out, to)
}

// From the columns on. These are passed over first, with nowhere to write them, since they are reported last.
fn sheet(text: &[u8], at: usize, floors: &[bool], equal: usize, out: &mut [u8]) -> Option<usize>
    requires { (at ≤ length text.now) × (length floors.now + equal ≤ 512) }
    ensures { ReadsFrom (record { less = floors.now; equal = equal }) text.now at out.old result out.new }
{
    let rows = floors.len() + equal;
    let t = Export { text, floors, rows };
    let mut spare = [0u8; 1];
    let passed = matrix(t, at, &mut spare, 0)?;
    let (end, place) = ending(t, passed.next, passed.discrete, passed.total, out)?;
    if end < text.len() {
        return None;
    }
    let written = matrix(t, at, out, place)?;
    Some(written.place)
}

// Writes the report of an export, as far as the output reaches; its length. Nothing is an answer about the text alone: what the output
// then holds is left open.
pub fn read(text: &[u8], out: &mut [u8]) -> Option<usize>
    ensures { Reads text.now out.old result out.new }
{
    let mut floors = [false; 512];
    let rows = opening(text, &mut floors)?;
    sheet(text, rows.next, &floors[..rows.less], rows.equal, out)
}
