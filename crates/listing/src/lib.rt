// The lines of a listing. Each is written from the first byte of the part of the output that is lent to its writer, as far as
// the part reaches; a writer gives the line's length, whether or not the part reaches that far.
// Every public function is total: nothing stands for a number or a value that is out of range.
// What writes takes the output and a place in it, and gives the place behind what it wrote: document 01 names this form, where the rest of
// the output is lent to the writer of a line.
#![tactic(auto)]

pub mod bare;
pub mod sheet;

ghost use Rattle.std.specs.Prelude.{◌≡◌, cond, [], ◌∷◌, map, ◌+◌, ◌<◌, ◌≤◌, ◌^◌, min, length, take, replicate};
ghost use Rattle.rules.specs.Characters.{tab};
ghost use Rattle.rules.specs.Limits.{byte_limit};
ghost use Rattle.value.specs.Printed.{shown, Written};
ghost use Rattle.store.specs.Element.{list_of};
ghost use Rattle.language.specs.Listing.{lp_line, row_line, low_lines, var_line, col_line, ending_line, kind_field, fields};
ghost use Rattle.listing.specs.Shown.{shown_whole, shown_natural, shown_or, shown_line, shown_lines, shown_refused};
ghost use Rattle.listing.specs.Bare.{row_start, variable_start};
ghost use Rattle.listing.specs.Kinds.{kind_in};
ghost use Rattle.listing.specs.Spans.{idle_field, shown_span};

// ---- bytes at a place, which may lie past the output's end. No place overflows: a text is shorter than 2^63 bytes, and what
// stands before and after it in a line is short

// Writes b at a place, or past the end nothing; the next place.
fn put(out: &mut [u8], at: usize, b: u8) -> usize
    requires { at < 2 ^ 63 + 2 ^ 32 }
    ensures { Written out.old at (b ∷ []) result out.new }
{
    if out.len() <= at {
        return at + 1;
    }
    out[at] = b;
    at + 1
}

fn put_text(out: &mut [u8], at: usize, t: &[u8]) -> usize
    requires { at < 2 ^ 32 }
    ensures { Written out.old at t.now result out.new }
{
    let mut next = at;
    for b in t {
        next = put(out, next, *b);
    }
    next
}

// A text from the first byte on.
pub fn text(t: &[u8], out: &mut [u8]) -> usize
    ensures { Written out.old 0 t.now result out.new }
{
    put_text(out, 0, t)
}

// Where the rest of an output of n bytes begins that is lent from a place on: at that place, or past the end at the end.
pub fn rest_from(n: usize, at: usize) -> usize
    ensures { result ≡ min at n }
{
    if at < n {
        return at;
    }
    n
}

// ---- fields: a tab and what it stands before; the line feed

fn text_field(out: &mut [u8], at: usize, t: &[u8]) -> usize
    requires { at < 2 ^ 31 }
    ensures { (Written out.old at (tab ∷ t.now) result out.new) × (result ≤ at + 2 ^ 63) }
{
    let next = put(out, at, b'\t');
    put_text(out, next, t)
}

// A string of the first line, which has two: so that their sum fits, each is cut at the length of the longest text.
fn title_field(out: &mut [u8], at: usize, t: &[u8]) -> usize
    requires { at < 2 ^ 31 }
    ensures { (Written out.old at (tab ∷ take byte_limit t.now) result out.new) × (result ≤ at + 16385) }
{
    text_field(out, at, lexer::part(t, 0, rules::BYTE_LIMIT))
}

fn letter(first: bool, a: u8, b: u8) -> u8
    ensures { result ≡ cond first a b }
{
    if first { a } else { b }
}

fn letter_field(out: &mut [u8], at: usize, b: u8) -> usize
    requires { at < 2 ^ 31 }
    ensures { (Written out.old at (tab ∷ b ∷ []) result out.new) × (result ≤ at + 32) }
{
    let next = put(out, at, b'\t');
    put(out, next, b)
}

// What a row is: of `<=` or `>=`, of `=`, or with a floor. Where it is a parameter it is data that is written, not a step.
#[derive(Clone, Copy)]
pub enum Kind {
    Less,
    Equal,
    Range,
}

fn kind_letter(kind: Kind) -> u8
    ensures { result ∷ [] ≡ kind_field (kind_in kind) }
{
    match kind {
        Kind::Less => b'L',
        Kind::Equal => b'E',
        Kind::Range => b'R',
    }
}

fn kind_field(out: &mut [u8], at: usize, kind: Kind) -> usize
    requires { at < 2 ^ 31 }
    ensures { (Written out.old at (tab ∷ kind_field (kind_in kind)) result out.new) × (result ≤ at + 32) }
{
    letter_field(out, at, kind_letter(kind))
}

fn value_field(out: &mut [u8], at: usize, v: value::Value) -> usize
    requires { at < 2 ^ 63 + 2 ^ 31 }
    ensures { (Written out.old at (tab ∷ shown v) result out.new) × (result ≤ at + 32) }
{
    let next = put(out, at, b'\t');
    let from = rest_from(out.len(), next);
    next + value::print(v, &mut out[from..])
}

fn whole_field(out: &mut [u8], at: usize, k: i64) -> usize
    requires { at < 2 ^ 63 + 2 ^ 31 }
    ensures { (Written out.old at (tab ∷ shown_whole k) result out.new) × (result ≤ at + 32) }
{
    value_field(out, at, value::Value::from(k))
}

fn number_field(out: &mut [u8], at: usize, n: usize) -> usize
    requires { at < 2 ^ 31 }
    ensures { (Written out.old at (tab ∷ shown_natural n) result out.new) × (result ≤ at + 32) }
{
    if n as u64 <= rules::MANTISSA_LIMIT {
        return whole_field(out, at, n as i64);
    }
    put(out, at, b'\t')
}

// A value, or a word where there is none.
fn value_or(out: &mut [u8], at: usize, v: Option<value::Value>, word: &[u8]) -> usize
    requires { (at < 2 ^ 31) × (length word.now ≤ 8) }
    ensures { (Written out.old at (tab ∷ shown_or word.now v) result out.new) × (result ≤ at + 32) }
{
    match v {
        None => text_field(out, at, word),
        Some(v) => value_field(out, at, v),
    }
}

fn idle_field(out: &mut [u8], at: usize, idle: bool) -> usize
    requires { at < 2 ^ 31 }
    ensures { (Written out.old at (tab ∷ idle_field idle) result out.new) × (result ≤ at + 32) }
{
    if idle {
        return text_field(out, at, b"idle");
    }
    text_field(out, at, b"-")
}

// The index values, and the line's end.
fn element_fields(out: &mut [u8], at: usize, e: store::Element) -> usize
    requires { at < 2 ^ 63 + 2 ^ 30 }
    ensures { Written out.old at (fields (map shown_whole (list_of e))) result out.new }
{
    let mut next = at;
    for i in 0..e.length() {
        next = whole_field(out, next, e.at(i));
    }
    put(out, next, b'\n')
}

// ---- lines

pub fn lp(
    discrete: usize,
    variables: usize,
    less: usize,
    rows: usize,
    title: &[u8],
    data_title: &[u8],
    out: &mut [u8],
) -> usize
    ensures { Written out.old 0 (shown_line (lp_line discrete variables less rows (take byte_limit title.now) (take byte_limit data_title.now))) result out.new }
{
    let at = put_text(out, 0, b"lp");
    let at = number_field(out, at, discrete);
    let at = number_field(out, at, variables);
    let at = number_field(out, at, less);
    let at = number_field(out, at, rows);
    let at = title_field(out, at, title);
    let at = title_field(out, at, data_title);
    put(out, at, b'\n')
}

// What a row's line starts with.
fn row_start(number: usize, kind: Kind, right: value::Value, out: &mut [u8]) -> usize
    ensures { (Written out.old 0 (row_start number (kind_in kind) right) result out.new) × (result ≤ 128) }
{
    let at = put_text(out, 0, b"row");
    let at = number_field(out, at, number);
    let at = kind_field(out, at, kind);
    value_field(out, at, right)
}

pub fn row(
    number: usize,
    kind: Kind,
    right: value::Value,
    title: &[u8],
    e: store::Element,
    out: &mut [u8],
) -> usize
    ensures { Written out.old 0 (shown_line (row_line number (kind_in kind) right title.now (list_of e))) result out.new }
{
    let at = row_start(number, kind, right, out);
    let at = text_field(out, at, title);
    element_fields(out, at, e)
}

// The floor of a row, if it has one.
pub fn low(row: usize, floor: Option<value::Value>, out: &mut [u8]) -> usize
    ensures { Written out.old 0 (shown_lines (low_lines row floor)) result out.new }
{
    let Some(v) = floor else {
        return 0;
    };
    let at = put_text(out, 0, b"low");
    let at = number_field(out, at, row);
    let at = value_field(out, at, v);
    put(out, at, b'\n')
}

// What a variable's line starts with.
fn variable_start(
    number: usize,
    discrete: bool,
    lower: value::Value,
    upper: Option<value::Value>,
    out: &mut [u8],
) -> usize
    ensures { (Written out.old 0 (variable_start number discrete lower upper) result out.new) × (result ≤ 160) }
{
    let at = put_text(out, 0, b"var");
    let at = number_field(out, at, number);
    let at = letter_field(out, at, letter(discrete, b'D', b'C'));
    let at = value_field(out, at, lower);
    value_or(out, at, upper, b"inf")
}

pub fn variable(
    number: usize,
    discrete: bool,
    lower: value::Value,
    upper: Option<value::Value>,
    name: &[u8],
    e: store::Element,
    out: &mut [u8],
) -> usize
    ensures { Written out.old 0 (shown_line (var_line number discrete lower upper name.now (list_of e))) result out.new }
{
    let at = variable_start(number, discrete, lower, upper, out);
    let at = text_field(out, at, name);
    element_fields(out, at, e)
}

pub fn column(variable: usize, row: usize, v: value::Value, out: &mut [u8]) -> usize
    ensures { Written out.old 0 (shown_line (col_line variable row v)) result out.new }
{
    let at = put_text(out, 0, b"col");
    let at = number_field(out, at, variable);
    let at = number_field(out, at, row);
    let at = value_field(out, at, v);
    put(out, at, b'\n')
}

pub fn end(out: &mut [u8]) -> usize
    ensures { Written out.old 0 (shown_line ending_line) result out.new }
{
    put_text(out, 0, b"end\n")
}

// The span of a row: its least and its greatest value, and whether it is idle.
pub fn span(
    number: usize,
    least: Option<value::Value>,
    greatest: Option<value::Value>,
    idle: bool,
    out: &mut [u8],
) -> usize
    ensures { Written out.old 0 (shown_span number least greatest idle) result out.new }
{
    let at = put_text(out, 0, b"span");
    let at = number_field(out, at, number);
    let at = value_or(out, at, least, b"-");
    let at = value_or(out, at, greatest, b"-");
    let at = idle_field(out, at, idle);
    put(out, at, b'\n')
}

// ---- a refusal's output

// The line that a program writes instead of a listing.
pub fn refused(number: usize, place: usize, out: &mut [u8]) -> usize
    ensures { Written out.old 0 (shown_refused number place) result out.new }
{
    let at = put_text(out, 0, b"refused");
    let at = number_field(out, at, number);
    let at = number_field(out, at, place);
    put(out, at, b'\n')
}

// Every byte zero.
pub fn clear(out: &mut [u8])
    ensures { out.new ≡ replicate (length out.old) 0 }
{
    out.fill(0);
}
