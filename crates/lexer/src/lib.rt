// The token cursor: at any position of any text, the token that comes next, its place and the cursor past it. Names and
// strings are handed on as parts of the text.
#![tactic(auto)]

ghost use Rattle.std.specs.Prelude.{◌≡◌, Bool, ℕ, cond, [], ◌+◌, ◌-◌, ◌<◌, ◌≤◌, length, get_or, drop};
ghost use Rattle.value.specs.Literal.{is_digit};
ghost use Rattle.lexer.specs.Marks.{capital_words, small_words};
ghost use Rattle.lexer.specs.Numbers.{number};
ghost use Rattle.lexer.specs.Text.{is_blank, is_small, is_capital, in_name, in_string, no_brace, front, behind, same_bytes, pointed as pointedBytes, power_size, powered as poweredStep, name_step, word_step, literal_step, string_step, order_step, step_at, uncounted};
ghost use Rattle.lexer.specs.View.{part_of, Reads, start_of, Turns, kind_of};
ghost use Rattle.lexer.specs.Inner.{RunLength, Gives, found_of, PointAfter, SignLength, PowerLength, fraction_step, other_step, IsSign, IsWord};

// The signs and words, each with its number in specs/Numbers.antt.
#[derive(Clone, Copy, PartialEq, Eq, Debug)]
pub enum Mark {
    Plus = 43, // +
    Minus = 45, // -
    Times = 42, // *
    Comma = 44, // ,
    Semicolon = 59, // ;
    Colon = 58, // :
    Equals = 61, // =
    AtMost = 60, // <=
    AtLeast = 62, // >=
    LeftParen = 40, // (
    RightParen = 41, // )
    LeftBracket = 91, // [
    RightBracket = 93, // ]
    // Capital words.
    Open = 128,
    Close = 129,
    Maximize = 130,
    Minimize = 131,
    Init = 132,
    Sum = 133,
    Sigma = 134,
    // The six lower-case words.
    Index = 140,
    Integer = 141,
    Real = 142,
    Formula = 143,
    Discrete = 144,
    Continuous = 145,
}

impl Mark {
    // The cast, with a clause that gives it for every mark at once.
    pub fn number(self) -> u64
        ensures { result ≡ number self }
    {
        self as u64
    }
}

// A sign or word; a name's first byte and length; whether a literal is digits only, and its value; the first byte and length of
// what stands between braces; the text's end; no token, and why.
#[derive(Clone, Copy)]
pub enum Token {
    Mark(Mark),
    Name(usize, usize),
    Literal(bool, value::Value),
    String(usize, usize),
    End,
    Wrong(rules::Refusal),
}

// ---- bytes

fn is_blank(b: u8) -> bool
    ensures { result ≡ is_blank b }
{
    (b == b' ') | (b == b'\t') | (b == b'\n') | (b == b'\r')
}

fn is_digit(b: u8) -> bool
    ensures { result ≡ is_digit b }
{
    (b'0' <= b) & (b <= b'9')
}

fn is_small(b: u8) -> bool
    ensures { result ≡ is_small b }
{
    (b'a' <= b) & (b <= b'z')
}

fn is_capital(b: u8) -> bool
    ensures { result ≡ is_capital b }
{
    (b'A' <= b) & (b <= b'Z')
}

fn in_name(b: u8) -> bool
    ensures { result ≡ in_name b }
{
    ((b'a' <= b) & (b <= b'z')) | ((b'0' <= b) & (b <= b'9'))
}

fn no_brace(b: u8) -> bool
    ensures { result ≡ no_brace b }
{
    !(b == b'}')
}

fn in_string(b: u8) -> bool
    ensures { result ≡ in_string b }
{
    (b' ' <= b) & (b <= b'~') & !(b == b'{')
}

// The sign of one byte that b is.
fn sign(b: u8) -> Option<Mark>
    ensures { IsSign b result }
{
    match b {
        b'+' => Some(Mark::Plus),
        b'-' => Some(Mark::Minus),
        b'*' => Some(Mark::Times),
        b',' => Some(Mark::Comma),
        b';' => Some(Mark::Semicolon),
        b':' => Some(Mark::Colon),
        b'=' => Some(Mark::Equals),
        b'(' => Some(Mark::LeftParen),
        b')' => Some(Mark::RightParen),
        b'[' => Some(Mark::LeftBracket),
        b']' => Some(Mark::RightBracket),
        _ => None,
    }
}

// The byte at i, or 0 past the end.
fn byte_at(s: &[u8], i: usize) -> u8
    ensures { result ≡ get_or s.now i 0 }
{
    if i < s.len() { s[i] } else { 0 }
}

// ---- parts of the text

// How many bytes that pass the test stand from `at` on.
fn run_length<F: Fn(u8) -> bool>(s: &[u8], at: usize, test: F) -> usize
    requires { F.IsAlwaysCallable test }
    ensures run { (c : ℕ → Bool) → ((b : ℕ) (r : Bool) → F.post test b r → r ≡ c b) → RunLength s.now at c result }
    ensures bound { result ≤ length s.now - at }
{
    for i in at..s.len() {
        if !test(s[i]) {
            return i - at;
        }
    }
    s.len().saturating_sub(at)
}

// The n bytes from `at` on, or as many of them as the text has.
pub fn part<'a>(s: &'a [u8], at: usize, n: usize) -> &'a [u8]
    ensures { result.now ≡ part_of s.now at n }
{
    let end = s.len();
    if end <= at {
        return &s[end..end];
    }
    if end - at <= n {
        return &s[at..end];
    }
    let stop = at + n;
    &s[at..stop]
}

// The bytes between the braces of the string at `at`.
fn between_braces<'a>(s: &'a [u8], at: usize) -> &'a [u8]
    ensures { result.now ≡ front no_brace (drop (at + 1) s.now) }
{
    let length = s.len();
    if length <= at {
        return &s[length..length];
    }
    let from = at + 1;
    let n = run_length(s, from, no_brace);
    let end = from + n;
    &s[from..end]
}

// ---- words

// The word if the run is spelled so, else another one or none.
fn word_or(spelling: &[u8], word: Mark, run: &[u8], other: Option<Mark>) -> Option<Mark>
    ensures { result ≡ cond (same_bytes spelling.now run.now) (Some word) other }
{
    if spelling == run { Some(word) } else { other }
}

// The capital word that the run is.
fn capital_word(run: &[u8]) -> Option<Mark>
    ensures { IsWord capital_words run.now result }
{
    let w = word_or(b"S", Mark::Sigma, run, None);
    let w = word_or(b"SUM", Mark::Sum, run, w);
    let w = word_or(b"INIT", Mark::Init, run, w);
    let w = word_or(b"MINIMIZE", Mark::Minimize, run, w);
    let w = word_or(b"MAXIMIZE", Mark::Maximize, run, w);
    let w = word_or(b"CLOSE", Mark::Close, run, w);
    word_or(b"OPEN", Mark::Open, run, w)
}

// The lower-case word that the run is.
fn small_word(run: &[u8]) -> Option<Mark>
    ensures { IsWord small_words run.now result }
{
    let w = word_or(b"continuous", Mark::Continuous, run, None);
    let w = word_or(b"discrete", Mark::Discrete, run, w);
    let w = word_or(b"formula", Mark::Formula, run, w);
    let w = word_or(b"real", Mark::Real, run, w);
    let w = word_or(b"integer", Mark::Integer, run, w);
    word_or(b"index", Mark::Index, run, w)
}

// ---- tokens

// A token, its place, and how many bytes it has.
#[derive(Clone, Copy)]
struct Found {
    token: Token,
    place: usize,
    size: usize,
}

// A run of letters and digits: one of the words, or a name that is not too long.
fn name(s: &[u8], at: usize) -> Found
    requires { at < length s.now }
    ensures { Gives s.now result (name_step at (front in_name (drop at s.now))) }
{
    let n = run_length(s, at, in_name);
    let end = at + n;
    if let Some(w) = small_word(&s[at..end]) {
        return Found {
            token: Token::Mark(w),
            place: at,
            size: n,
        };
    }
    if n <= rules::NAME_LENGTH {
        return Found {
            token: Token::Name(at, n),
            place: at,
            size: n,
        };
    }
    Found {
        token: Token::Wrong(rules::Refusal::BadName),
        place: at,
        size: n,
    }
}

// A run of capitals: one of the words, or misshapen.
fn word(s: &[u8], at: usize) -> Found
    requires { at < length s.now }
    ensures { Gives s.now result (word_step at (front is_capital (drop at s.now))) }
{
    let n = run_length(s, at, is_capital);
    let end = at + n;
    if let Some(w) = capital_word(&s[at..end]) {
        return Found {
            token: Token::Mark(w),
            place: at,
            size: n,
        };
    }
    Found {
        token: Token::Wrong(rules::Refusal::Misplaced),
        place: at,
        size: n,
    }
}

// A literal's value, or that there is none that fits.
fn valued(whole: bool, v: Option<value::Value>, at: usize, size: usize) -> Found
    ensures { result ≡ found_of whole v at size }
{
    match v {
        Some(x) => Found {
            token: Token::Literal(whole, x),
            place: at,
            size,
        },
        None => Found {
            token: Token::Wrong(rules::Refusal::Unfit),
            place: at,
            size,
        },
    }
}

// Do a point and a digit stand at `at`?
fn pointed(s: &[u8], at: usize) -> bool
    ensures { result ≡ pointedBytes (drop at s.now) }
{
    if s.len() <= at {
        return false;
    }
    (byte_at(s, at) == b'.') & is_digit(byte_at(s, at + 1))
}

// How many bytes at `at` are a sign, at most one.
fn sign_length(s: &[u8], at: usize) -> usize
    ensures { SignLength s.now at result }
{
    let b = byte_at(s, at);
    if (b == b'+') | (b == b'-') { 1 } else { 0 }
}

// The bytes of `E`, the sign and n digits, of which at most two are taken; 0 without a digit.
fn power_size(sign: usize, n: usize) -> usize
    requires { sign ≤ 1 }
    ensures { result ≡ power_size sign n }
{
    if rules::POWER_DIGITS < n {
        return 1 + sign + rules::POWER_DIGITS;
    }
    if n == 0 { 0 } else { 1 + sign + n }
}

// How many bytes from `at` on are `E`, an optional sign and one or two digits; 0 where these are not all there.
fn power_length(s: &[u8], at: usize) -> usize
    ensures { PowerLength s.now at result }
{
    if s.len() <= at {
        return 0;
    }
    if byte_at(s, at) != b'E' {
        return 0;
    }
    let from = at + 1;
    let sign = sign_length(s, from);
    let digits = from + sign;
    let n = run_length(s, digits, is_digit);
    power_size(sign, n)
}

// The literal whose decimal stands from `at` to `end`, with its power of ten if one follows.
fn powered(s: &[u8], at: usize, end: usize, whole: bool) -> Found
    requires { (at ≤ end) × (end ≤ length s.now) }
    ensures { Gives s.now result (poweredStep whole at (part_of s.now at (end - at)) (drop end s.now)) }
{
    let n = power_length(s, end);
    let stop = end + n;
    let v = value::literal(&s[at..stop]);
    let size = stop - at;
    let plain = whole & (n == 0);
    valued(plain, v, at, size)
}

// w digits, a point, and digits after it.
fn fraction(s: &[u8], at: usize, w: usize) -> Found
    requires { PointAfter s.now at w }
    ensures { Gives s.now result (fraction_step at (drop at s.now)) }
{
    let from = at + w + 1;
    let f = run_length(s, from, is_digit);
    let end = from + f;
    powered(s, at, end, false)
}

// Digits, digits.digits or .digits, and a power of ten if one follows.
fn literal(s: &[u8], at: usize) -> Found
    requires { at < length s.now }
    ensures { Gives s.now result (literal_step at (front is_digit (drop at s.now)) (behind is_digit (drop at s.now))) }
{
    let w = run_length(s, at, is_digit);
    let end = at + w;
    if pointed(s, end) {
        return fraction(s, at, w);
    }
    powered(s, at, end, true)
}

// What stands between braces.
fn string(s: &[u8], at: usize) -> Found
    requires { at < length s.now }
    ensures { Gives s.now result (string_step at (front no_brace (drop (at + 1) s.now)) (behind no_brace (drop (at + 1) s.now))) }
{
    let inner = between_braces(s, at);
    let n = inner.len();
    let good = run_length(inner, 0, in_string);
    let from = at + 1;
    if good < n {
        return Found {
            token: Token::Wrong(rules::Refusal::StrangeByte),
            place: from + good,
            size: 0,
        };
    }
    let end = from + n;
    let size = n + 2;
    let length = s.len();
    let sized = (1 <= n) & (n <= rules::STRING_LENGTH);
    if (end < length) & sized {
        return Found {
            token: Token::String(from, n),
            place: at,
            size,
        };
    }
    Found {
        token: Token::Wrong(rules::Refusal::Misplaced),
        place: at,
        size,
    }
}

// `<=` and `>=`.
fn order(s: &[u8], at: usize, k: Mark) -> Found
    requires { at < length s.now }
    ensures { Gives s.now result (order_step at (number k) (drop (at + 1) s.now)) }
{
    let b = byte_at(s, at + 1);
    if b == b'=' {
        return Found {
            token: Token::Mark(k),
            place: at,
            size: 2,
        };
    }
    Found {
        token: Token::Wrong(rules::Refusal::StrangeByte),
        place: at,
        size: 0,
    }
}

// The token at `at` whose first byte is b, no letter, digit or sign of one byte.
fn other(s: &[u8], at: usize, b: u8) -> Found
    requires { at < length s.now }
    ensures { Gives s.now result (other_step at b (drop (at + 1) s.now)) }
{
    if b == b'{' {
        return string(s, at);
    }
    if b == b'<' {
        return order(s, at, Mark::AtMost);
    }
    if b == b'>' {
        return order(s, at, Mark::AtLeast);
    }
    Found {
        token: Token::Wrong(rules::Refusal::StrangeByte),
        place: at,
        size: 0,
    }
}

// The token at `at`, where no blank stands.
fn token_at(s: &[u8], at: usize) -> Found
    requires { at < length s.now }
    ensures { Gives s.now result (step_at at (get_or s.now at 0) (drop (at + 1) s.now)) }
{
    let b = byte_at(s, at);
    if let Some(m) = sign(b) {
        return Found {
            token: Token::Mark(m),
            place: at,
            size: 1,
        };
    }
    if is_digit(b) | pointed(s, at) {
        return literal(s, at);
    }
    if is_small(b) {
        return name(s, at);
    }
    if is_capital(b) {
        return word(s, at);
    }
    other(s, at, b)
}

// ---- the cursor

#[derive(Clone, Copy)]
pub struct Cursor {
    pub at: usize,
}

// A token, its place, and where the next one is read.
#[derive(Clone, Copy)]
pub struct Read<N> {
    pub token: Token,
    pub place: usize,
    pub next: N,
}

impl Cursor {
    // The token that comes next.
    pub fn next(self, s: &[u8]) -> Read<Cursor>
        ensures { Reads s.now self.at result }
    {
        let at = self.at + run_length(s, self.at, is_blank);
        if s.len() <= at {
            return Read {
                token: Token::End,
                place: at,
                next: Cursor { at },
            };
        }
        let found = token_at(s, at);
        Read {
            token: found.token,
            place: found.place,
            next: Cursor {
                at: at + found.size,
            },
        }
    }
}

// ---- the count of tokens

// A cursor with how many tokens may still come before `INIT` or `CLOSE`, and whether these are still to come.
#[derive(Clone, Copy)]
pub struct Source {
    pub at: usize,
    pub left: usize,
    pub counts: bool,
}

// Does the token end the count: `INIT`, `CLOSE`, the end, a refusal?
fn ends_count(t: Token) -> bool
    ensures { result ≡ uncounted (kind_of [] t) }
{
    match t {
        Token::Mark(m) => matches!(m, Mark::Init | Mark::Close),
        Token::Name(_, _) | Token::Literal(_, _) | Token::String(_, _) => false,
        Token::End | Token::Wrong(_) => true,
    }
}

impl Source {
    // A text's beginning.
    pub fn start() -> Source
        ensures { result ≡ start_of }
    {
        Source {
            at: 0,
            left: rules::TOKEN_LIMIT,
            counts: true,
        }
    }

    // The token that comes next, or that the table is full where it is one too many.
    pub fn next(self, s: &[u8]) -> Read<Source>
        ensures { Turns s.now self result }
    {
        let left = self.left;
        let read = Cursor { at: self.at }.next(s);
        if !self.counts | ends_count(read.token) {
            return Read {
                token: read.token,
                place: read.place,
                next: Source {
                    at: read.next.at,
                    left,
                    counts: false,
                },
            };
        }
        if left == 0 {
            return Read {
                token: Token::Wrong(rules::Refusal::Full),
                place: read.place,
                next: self,
            };
        }
        Read {
            token: read.token,
            place: read.place,
            next: Source {
                at: read.next.at,
                left: left - 1,
                counts: true,
            },
        }
    }
}
