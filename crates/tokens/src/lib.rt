// Tokens and names as the parser keeps them, and the readers that take a token or a bracket's head. A token is one word, its kind,
// place and payload; a position is its index in the table. A name is a row of five words: place, length, sort, number of indices,
// and the position at which its declared formula or its domain's first entry stands.
#![tactic(auto)]

pub mod scanner;

ghost use Rattle.std.specs.Prelude.{◌≡◌, [], ◌∷◌, ◌+◌, get_or};
ghost use Rattle.lexer.specs.Text.{same_bytes};
ghost use Rattle.tokens.specs.Stored.{spelling, refusal_of, mark_number, sort_number, Looks, look_up, KnownAt, Put, Moves};
ghost use Rattle.tokens.specs.Pieces.{expect_in, bracket_in, index_in, head_in, sign_in};
ghost use Rattle.tokens.specs.Text.{In};

use lexer::Mark;
use rules::{Refused, refused};

// The kinds of stored tokens by their numbers; a sign or word has its own number, which is above these.
#[derive(Clone, Copy, PartialEq, Eq, Debug)]
pub enum Kind {
    End = 0,
    Name = 1, // payload: the number of its bytes, in the lowest four bits
    Whole = 2, // a literal without a point; payload: 8 m + s
    Pointed = 3, // a literal with a point; payload: 8 m + s
    String = 4, // payload: the number of bytes between the braces
    Wrong = 5, // payload: the refusal's number
}

// The sorts of declared names by their numbers.
#[derive(Clone, Copy, PartialEq, Eq, Debug)]
pub enum Sort {
    Index = 0,
    Integer = 1,
    Real = 2,
    Formula = 3,
    Discrete = 4,
    Continuous = 5,
}

impl Sort {
    // The cast, with a clause that gives it for every sort at once.
    pub fn number(self) -> u64
        ensures { result ≡ sort_number self }
    {
        self as u64
    }
}

// A token's kind, place, payload and the position after it. The kind is the number of a `Kind` or a `Mark`.
#[derive(Clone, Copy)]
pub struct Seen {
    pub kind: u64,
    pub place: u64,
    pub payload: u64,
    pub next: usize,
}

// A declared name's number, sort and number of indices.
#[derive(Clone, Copy)]
pub struct Found {
    pub number: usize,
    pub sort: u64,
    pub count: u64,
}

// A declared name that stands in the text: its number, sort, number of indices and place, and the position after it.
#[derive(Clone, Copy)]
pub struct Known {
    pub number: usize,
    pub sort: u64,
    pub count: u64,
    pub place: u64,
    pub next: usize,
}

// A text as it is stored: its bytes, its name table and its token table.
#[derive(Clone, Copy)]
pub struct Text<'a> {
    pub bytes: &'a [u8],
    pub names: &'a [u64],
    pub tokens: &'a [u64],
}

// A word is kind * KIND_UNIT + place * PLACE_UNIT + payload, with the place below PLACES.
pub const KIND_UNIT: u64 = 281474976710656;

pub const PLACE_UNIT: u64 = 8589934592;

pub const PLACES: u64 = 32768;

// A name's payload modulo NAME_UNIT is the number of its bytes.
pub const NAME_UNIT: u64 = 16;

// A token's own refusal, by its number; any other number is 3. A token is never refused with 7 to 11, so it is no `TryFrom`.
fn refusal(x: u64) -> rules::Refusal
    ensures { result ≡ refusal_of x }
{
    match x {
        1 => rules::Refusal::LongText,
        2 => rules::Refusal::StrangeByte,
        4 => rules::Refusal::BadName,
        5 => rules::Refusal::Unfit,
        6 => rules::Refusal::Full,
        _ => rules::Refusal::Misplaced,
    }
}

// The number of a sign or word, 0 for other kinds.
fn mark(kind: u64) -> u64
    ensures { result ≡ mark_number kind }
{
    if kind <= Kind::Wrong as u64 { 0 } else { kind }
}

// The token at `at`, after its own tests.
pub fn token_at(tokens: &[u64], at: usize) -> Result<Seen, Refused>
    ensures { Looks tokens.now at result }
{
    if tokens.len() <= at {
        return refused!(Misplaced, 0);
    }
    let w = tokens[at];
    let kind = w / KIND_UNIT;
    let place = w / PLACE_UNIT % PLACES;
    let payload = w % PLACE_UNIT;
    if kind == Kind::Wrong as u64 {
        return Err(Refused {
            refusal: refusal(payload),
            place,
        });
    }
    Ok(Seen {
        kind,
        place,
        payload,
        next: at + 1,
    })
}

// The i-th byte behind p, 0 past the text's end.
fn byte_at(text: &[u8], p: u64, i: u64) -> u8
    ensures { result ≡ get_or text.now (p + i) 0 }
{
    let n = text.len() as u64;
    if n <= p {
        return 0;
    }
    if n - p <= i {
        return 0;
    }
    let at = (p + i) as usize;
    text[at]
}

// Whether two names have the same bytes. Past the text's end a name has zeros, so it is no slice of the text.
fn same_name(text: &[u8], p: u64, n: u64, q: u64, m: u64) -> bool
    ensures { result ≡ same_bytes (spelling text.now p n) (spelling text.now q m) }
{
    if n != m {
        return false;
    }
    for i in 0..n {
        let a = byte_at(text, p, i);
        let b = byte_at(text, q, i);
        if a != b {
            return false;
        }
    }
    true
}

// What the table says of the name with the n bytes at p.
pub fn find(text: &[u8], names: &[u64], p: u64, n: u64) -> Option<Found>
    ensures { result ≡ look_up text.now (spelling text.now p n) names.now 0 }
{
    for number in 0..names.len() / 5 {
        let i = number * 5;
        let same = same_name(text, p, n, names[i], names[i + 1]);
        if same {
            return Some(Found {
                number,
                sort: names[i + 2],
                count: names[i + 3],
            });
        }
    }
    None
}

// Row `number` of a table of rows of five words; nothing is written past the table's end.
pub fn put_row(rows: &mut [u64], number: usize, a: u64, b: u64, c: u64, d: u64, e: u64)
    ensures { Put rows.old number (a ∷ b ∷ c ∷ d ∷ e ∷ []) rows.new }
{
    if rows.len() / 5 <= number {
        return;
    }
    let at = number * 5;
    rows[at] = a;
    rows[at + 1] = b;
    rows[at + 2] = c;
    rows[at + 3] = d;
    rows[at + 4] = e;
}

// The sign or word with the number `c`.
pub fn expect(text: Text<'_>, at: usize, c: u8) -> Result<usize, Refused>
    ensures { In (Moves (expect_in c)) text.entry at result }
{
    let token = token_at(text.tokens, at)?;
    let m = mark(token.kind);
    if m != c as u64 {
        return refused!(Misplaced, token.place);
    }
    Ok(token.next)
}

// The opening bracket `c`; with `nest` 0 it is one too many.
pub fn bracket(text: Text<'_>, at: usize, nest: usize, c: u8) -> Result<usize, Refused>
    ensures { In (Moves (bracket_in c nest)) text.entry at result }
{
    let token = token_at(text.tokens, at)?;
    let m = mark(token.kind);
    if m != c as u64 {
        return refused!(Misplaced, token.place);
    }
    if nest == 0 {
        return refused!(Full, token.place);
    }
    Ok(token.next)
}

// A declared name.
pub fn known_name(text: Text<'_>, at: usize) -> Result<Known, Refused>
    ensures { In KnownAt text.entry at result }
{
    let token = token_at(text.tokens, at)?;
    if token.kind != Kind::Name as u64 {
        return refused!(Misplaced, token.place);
    }
    let Some(name) = find(
        text.bytes,
        text.names,
        token.place,
        token.payload % NAME_UNIT,
    ) else {
        return refused!(BadName, token.place);
    };
    Ok(Known {
        number: name.number,
        sort: name.sort,
        count: name.count,
        place: token.place,
        next: token.next,
    })
}

// A declared index.
pub fn index(text: Text<'_>, at: usize) -> Result<usize, Refused>
    ensures { In (Moves index_in) text.entry at result }
{
    let name = known_name(text, at)?;
    if name.sort != Sort::Index as u64 {
        return refused!(Misplaced, name.place);
    }
    Ok(name.next)
}

// `(`, an index and a comma.
pub fn head(text: Text<'_>, at: usize, nest: usize) -> Result<usize, Refused>
    ensures { In (Moves (head_in nest)) text.entry at result }
{
    let a = bracket(text, at, nest, Mark::LeftParen as u8)?;
    let b = index(text, a)?;
    expect(text, b, Mark::Comma as u8)
}

// An optional `+` or `-`.
pub fn sign(text: Text<'_>, at: usize) -> Result<usize, Refused>
    ensures { In (Moves sign_in) text.entry at result }
{
    let token = token_at(text.tokens, at)?;
    if (token.kind == Mark::Plus as u64) | (token.kind == Mark::Minus as u64) {
        return Ok(token.next);
    }
    Ok(at)
}
