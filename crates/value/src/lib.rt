// Values: m / 10^s, s from 0 to 6 and as small as it can be, m at most 999,999,999 either side of zero.
// Every public function is total: it answers for any numbers m and s, also those that are no value.
#![tactic(auto)]

ghost use Rattle.std.specs.Prelude.{◌≡◌, true, false, cond, ◌&&◌, [], ◌∷◌, ◌+◌, ◌-◌, ◌*◌, ◌/◌, ◌%◌, ◌^◌, ◌<◌, ◌≤◌, length, pos, nat_abs, ◌+ℤ◌, ◌-ℤ◌, ◌*ℤ◌, Some, eqb, ok_or};
ghost use Rattle.std.specs.List.{position};
ghost use Rattle.rules.specs.Characters.{code};
ghost use Rattle.rules.specs.Limits.{mantissa_limit, scale_limit};
ghost use Rattle.value.specs.Decimal.{tenths, with_sign, at, choose, fit_of, in_range, if_in_range, sum_of, product_of, negate, is_at_most, is_zero, whole_of, of_whole, floor_of, ceiling_of};
ghost use Rattle.value.specs.Gathering.{count_limit, millionths, of_millionths, is_count, Gathered};
ghost use Rattle.value.specs.Literal.{all_digits, digit_of, number_from, power_by, power_of, scaled_by, raised_by, literal_of};
ghost use Rattle.value.specs.Printed.{width_from, digits, minus_sign, places, printed, shown, Written};
ghost use Rattle.value.specs.Parts.{parts_value, signed_power, IsPower};

use std::ops::Neg;

#[derive(Clone, Copy)]
pub struct Value {
    pub m: i64,
    pub s: usize,
}

// ---- powers of ten

// 10^k below 10^10. A `match`: a constant table is built anew at each call.
fn small_power(k: usize) -> u64
    requires { k < 10 }
    ensures { result ≡ 10 ^ k }
{
    match k {
        0 => 1,
        1 => 10,
        2 => 100,
        3 => 1000,
        4 => 10000,
        5 => 100000,
        6 => 1000000,
        7 => 10000000,
        8 => 100000000,
        _ => 1000000000,
    }
}

fn power(k: usize) -> u64
    requires { k < 19 }
    ensures { result ≡ 10 ^ k }
{
    if k < 10 {
        return small_power(k);
    }
    1000000000 * small_power(k - 9)
}

// ---- signed numbers: all code that adds, subtracts or multiplies them stands here

fn plus(a: i64, b: i64) -> i64
    requires { nat_abs a + nat_abs b < 2 ^ 63 }
    ensures { result ≡ a +ℤ b }
{
    a + b
}

fn minus(a: i64, b: i64) -> i64
    requires { nat_abs a + nat_abs b < 2 ^ 63 }
    ensures { result ≡ a -ℤ b }
{
    a - b
}

fn times(a: i64, b: i64) -> i64
    requires { nat_abs a * nat_abs b < 2 ^ 63 }
    ensures { result ≡ a *ℤ b }
{
    a * b
}

// x with the sign of a
fn with_sign(a: i64, x: u64) -> i64
    requires { x < 2 ^ 63 }
    ensures { result ≡ with_sign a x }
{
    if a < 0 { 0 - (x as i64) } else { x as i64 }
}

// ---- the lowest form

// m / 10^i with the sign of z, if m is small enough.
fn chosen(z: i64, m: u64, i: usize) -> Option<Value>
    ensures { result ≡ choose z (at m i) }
{
    if m <= rules::MANTISSA_LIMIT {
        return Some(Value {
            m: with_sign(z, m),
            s: i,
        });
    }
    None
}

// z / 10^s over the lowest power of ten over which it can be written.
fn normalise(z: i64, s: usize) -> Option<Value>
    requires { s < 19 }
    ensures { result ≡ fit_of (tenths z s) }
{
    let x = z.unsigned_abs();
    for i in 0..=rules::SCALE_LIMIT {
        let d = power(s - i);
        if x % d == 0 {
            return chosen(z, x / d, i);
        }
    }
    None
}

// ---- operations

// Are m and s within the bounds of a value?
fn in_range(v: Value) -> bool
    ensures { result ≡ in_range v }
{
    v.m.unsigned_abs() <= rules::MANTISSA_LIMIT && v.s <= rules::SCALE_LIMIT
}

fn both_in_range(a: Value, b: Value) -> bool
    ensures { result ≡ (in_range a && in_range b) }
{
    in_range(a) && in_range(b)
}

// m * 10^k
fn scaled(m: i64, k: usize) -> i64
    requires { (nat_abs m ≤ mantissa_limit) × (k ≤ scale_limit) }
    ensures { result ≡ m *ℤ pos (10 ^ k) }
{
    times(m, power(k) as i64)
}

// A value as a count of millionths.
fn aligned(v: Value) -> i64
    requires { in_range v ≡ true }
    ensures { result ≡ millionths v }
{
    let s = v.s;
    scaled(v.m, rules::SCALE_LIMIT - s)
}

// The value of a count of millionths, if it fits.
pub fn of_millionths(z: i64) -> Option<Value>
    ensures { result ≡ of_millionths z }
{
    normalise(z, rules::SCALE_LIMIT)
}

// Sum and product, exact, if they fit; too big where an operand is out of range. A difference is the sum with the opposite.
pub fn add(a: Value, b: Value) -> Option<Value>
    ensures { result ≡ if_in_range a b (sum_of a b) }
{
    if both_in_range(a, b) {
        return of_millionths(plus(aligned(a), aligned(b)));
    }
    None
}

pub fn mul(a: Value, b: Value) -> Option<Value>
    ensures { result ≡ if_in_range a b (product_of a b) }
{
    if both_in_range(a, b) {
        let m = times(a.m, b.m);
        let s = a.s + b.s;
        return normalise(m, s);
    }
    None
}

// The opposite; what is out of range stays as it is.
impl Neg for Value {
    type Output = Value;

    ghost neg_gives = { λ v r. r ≡ cond (in_range v) (negate v) v };

    fn neg(self) -> Value {
        if in_range(self) {
            return Value {
                m: minus(0, self.m),
                s: self.s,
            };
        }
        self
    }
}

impl Value {
    // Is it at most the other? Not so where one is out of range. No `PartialOrd`: what is out of range is not even at most itself,
    // and m / 10^s may be the same where m and s are not.
    pub fn at_most(self, other: Value) -> bool
        ensures { result ≡ cond (in_range self && in_range other) (is_at_most self other) false }
    {
        both_in_range(self, other) && scaled(self.m, other.s) <= scaled(other.m, self.s)
    }

    pub fn is_zero(self) -> bool
        ensures { result ≡ is_zero self }
    {
        self.m == 0
    }
}

// The whole number that a value is; where it is none, the value.
impl TryFrom<Value> for i64 {
    type Error = Value;

    ghost try_from_gives = { λ v r. r ≡ ok_or (whole_of v) v };

    fn try_from(v: Value) -> Result<i64, Value> {
        if v.s == 0 { Ok(v.m) } else { Err(v) }
    }
}

// A whole number as a value.
impl From<i64> for Value {
    ghost from_gives = { λ k v. v ≡ of_whole k };

    fn from(k: i64) -> Value {
        Value { m: k, s: 0 }
    }
}

// x / 10^s, rounded down.
fn quotient(x: u64, s: usize) -> u64
    requires { x ≤ 2 ^ 63 }
    ensures { result ≡ x / 10 ^ s }
{
    if s < 19 {
        return x / power(s);
    }
    0
}

// The whole number at v or next to it, toward zero.
fn toward_zero(v: Value) -> i64
    ensures { result ≡ with_sign v.m (nat_abs v.m / 10 ^ v.s) }
{
    if v.s == 0 {
        return v.m;
    }
    with_sign(v.m, quotient(v.m.unsigned_abs(), v.s))
}

// The whole number at v, which is not 0, or next to it, away from zero.
fn away_from_zero(v: Value) -> i64
    requires { 0 < nat_abs v.m }
    ensures { result ≡ with_sign v.m ((nat_abs v.m - 1) / 10 ^ v.s + 1) }
{
    if v.s == 0 {
        return v.m;
    }
    with_sign(v.m, quotient(v.m.unsigned_abs() - 1, v.s) + 1)
}

// The largest whole number that is not above v, whatever m and s are.
pub fn floor_of(v: Value) -> i64
    ensures { result ≡ floor_of v }
{
    let negative = v.m < 0;
    if negative {
        return away_from_zero(v);
    }
    toward_zero(v)
}

// The smallest whole number that is not below v, whatever m and s are.
pub fn ceiling_of(v: Value) -> i64
    ensures { result ≡ ceiling_of v }
{
    let positive = 0 < v.m;
    if positive {
        return away_from_zero(v);
    }
    toward_zero(v)
}

// ---- gathering coefficients

// A count that a value has is below this, either side of zero.
pub fn count_limit() -> u64
    ensures { result ≡ count_limit }
{
    power(15)
}

fn is_count(z: i64) -> bool
    ensures { result ≡ is_count z }
{
    z.unsigned_abs() < count_limit()
}

// Adds v to element k of the sums, which are counts of millionths, and says whether it did: there is such an element, it is
// a count, v is in range, and the sum fits. Otherwise nothing changes.
pub fn gather(sums: &mut [i64], k: usize, v: Value) -> bool
    ensures { Gathered sums.old k v result sums.new }
{
    if sums.len() <= k {
        return false;
    }
    if !in_range(v) {
        return false;
    }
    let old = sums[k];
    if !is_count(old) {
        return false;
    }
    let sum = plus(old, aligned(v));
    if of_millionths(sum).is_none() {
        return false;
    }
    sums[k] = sum;
    true
}

// ---- reading a literal

// A power of ten above this times a whole number that is not 0 does not fit.
const LARGEST_POWER: usize = 8;

fn all_digits(t: &[u8]) -> bool
    ensures { result ≡ all_digits t.now }
{
    t.iter().all(u8::is_ascii_digit)
}

fn digit(b: u8) -> u64
    ensures { result ≡ digit_of b }
{
    if b.is_ascii_digit() {
        return (b - b'0') as u64;
    }
    0
}

// The number m followed by the digits of t. std reads a `&str` from its start, and t is bytes that go on after m.
fn number(t: &[u8], m: u64) -> u64
    requires { (m + 1) * 10 ^ length t.now ≤ 10 ^ 18 }
    ensures { result ≡ number_from m t.now }
{
    let mut x = m;
    for &b in t {
        x = x * 10 + digit(b);
    }
    x
}

// Where a byte stands first, if it does.
fn first(t: &[u8], byte: u8) -> Option<usize>
    ensures { result ≡ position (λ b. eqb b byte) t.now }
{
    t.iter().position(|&b| b == byte)
}

// x / 10^s: a spare zero of x is taken off where the power is too large for `normalise`.
fn lowered(x: u64, s: usize) -> Option<Value>
    requires { x < 2 ^ 63 }
    ensures { result ≡ fit_of (tenths (pos x) s) }
{
    let mut y = x;
    for _ in rules::DIGIT_LIMIT..s {
        if y % 10 != 0 {
            return None;
        }
        y = y / 10;
    }
    normalise(y as i64, s.min(rules::DIGIT_LIMIT))
}

// x * 10^k
fn lifted(x: u64, k: usize) -> Option<Value>
    ensures { result ≡ fit_of (tenths (pos (x * 10 ^ k)) 0) }
{
    if x == 0 {
        return normalise(0, 0);
    }
    if rules::MANTISSA_LIMIT < x {
        return None;
    }
    if LARGEST_POWER < k {
        return None;
    }
    normalise((x * power(k)) as i64, 0)
}

// x / 10^f times a power of ten. `minus` is the sign of the power, as it was read: data, not a step.
fn raised(x: u64, f: usize, minus: bool, k: usize) -> Option<Value>
    requires { (x < 2 ^ 63) × (f < 19) × (k < 100) }
    ensures { result ≡ fit_of (scaled_by (signed_power minus k) (tenths (pos x) f)) }
{
    if minus {
        return lowered(x, f + k);
    }
    if k <= f {
        return normalise(x as i64, f - k);
    }
    lifted(x, k - f)
}

// The value of the digits a before the point and b after it, times a power of ten. `minus` is its sign: data, not a step.
fn read_parts(a: &[u8], b: &[u8], minus: bool, k: usize) -> Option<Value>
    requires { k < 100 }
    ensures { result ≡ parts_value (signed_power minus k) a.now b.now }
{
    let w = a.len();
    let f = b.len();
    if rules::DIGIT_LIMIT < w {
        return None;
    }
    if rules::DIGIT_LIMIT - w < f {
        return None;
    }
    if !all_digits(a) {
        return None;
    }
    if !all_digits(b) {
        return None;
    }
    let m = number(a, 0);
    let x = number(b, m);
    raised(x, f, minus, k)
}

// The value of digits, digits.digits or .digits, at most 18 digits, times a power of ten. `minus` is its sign: data, not a step.
fn decimal(t: &[u8], minus: bool, k: usize) -> Option<Value>
    requires { k < 100 }
    ensures { result ≡ raised_by (Some (signed_power minus k)) t.now }
{
    if t.is_empty() {
        return None;
    }
    let Some(p) = first(t, b'.') else {
        return read_parts(t, &[], minus, k);
    };
    if t.len() <= p + 1 {
        return None;
    }
    read_parts(&t[..p], &t[p + 1..], minus, k)
}

// The power that one or two digits write. `minus` is the sign before them, as it was read: data, not a step.
fn power_by(minus: bool, t: &[u8]) -> Option<(bool, usize)>
    ensures { IsPower (power_by minus t.now) result }
{
    if t.is_empty() {
        return None;
    }
    if rules::POWER_DIGITS < t.len() {
        return None;
    }
    if !all_digits(t) {
        return None;
    }
    let k = number(t, 0);
    Some((minus, k as usize))
}

// The power that an optional sign and one or two digits write.
fn power_of(t: &[u8]) -> Option<(bool, usize)>
    ensures { IsPower (power_of t.now) result }
{
    match t.first()? {
        b'-' => power_by(true, &t[1..]),
        b'+' => power_by(false, &t[1..]),
        _ => power_by(false, t),
    }
}

// The value of a literal: a decimal of at most 18 digits, which may be followed by `E`, an optional sign and one or two digits. Too
// big if t is none, or doesn't fit.
pub fn literal(t: &[u8]) -> Option<Value>
    ensures { result ≡ literal_of t.now }
{
    let Some(e) = first(t, b'E') else {
        return decimal(t, false, 0);
    };
    let (minus, k) = power_of(&t[e + 1..])?;
    decimal(&t[..e], minus, k)
}

// ---- printing: the output and a place in it travel side by side, as in crate `listing`

// Writes b at a place of the output, or past its end nothing; the next place.
fn put(out: &mut [u8], at: usize, b: u8) -> usize
    requires { at < 2 ^ 62 }
    ensures { Written out.old at (b ∷ []) result out.new }
{
    if at < out.len() {
        out[at] = b;
    }
    at + 1
}

fn digit_at(n: u64, k: usize) -> u8
    requires { k < 19 }
    ensures { result ≡ n / 10 ^ k % 10 + code "0" }
{
    (n / power(k) % 10) as u8 + b'0'
}

// The lowest k digits of n.
fn put_digits(out: &mut [u8], at: usize, k: usize, n: u64) -> usize
    requires { (k < 19) × (at < 2 ^ 61) }
    ensures { Written out.old at (digits k n) result out.new }
{
    let mut i = at;
    for j in (0..k).rev() {
        i = put(out, i, digit_at(n, j));
    }
    i
}

// How many digits n has, up to 18.
fn width_of(n: u64) -> usize
    ensures { (result ≡ width_from 17 1 n) × (result < 19) }
{
    for w in 1..18 {
        if n < power(w) {
            return w;
        }
    }
    18
}

fn put_sign(out: &mut [u8], m: i64) -> usize
    ensures { Written out.old 0 (minus_sign m) result out.new }
{
    if m < 0 {
        return put(out, 0, b'-');
    }
    0
}

// A point and s digits, or nothing if s is 0.
fn put_places(out: &mut [u8], at: usize, s: usize, x: u64) -> usize
    requires { (s < 19) × (at < 2 ^ 60) }
    ensures { Written out.old at (places s x) result out.new }
{
    if s == 0 {
        return at;
    }
    let next = put(out, at, b'.');
    put_digits(out, next, s, x)
}

fn put_value(out: &mut [u8], v: Value) -> usize
    requires { in_range v ≡ true }
    ensures { Written out.old 0 (printed v) result out.new }
{
    let m = v.m;
    let s = v.s;
    let x = m.unsigned_abs();
    let whole = x / power(s);
    let at = put_sign(out, m);
    let mid = put_digits(out, at, width_of(whole), whole);
    put_places(out, mid, s, x)
}

// Writes a value, as far as the output reaches; the text's length. Nothing for what is out of range. No `Display`: its `fmt` is
// written to a `Formatter`, which counts no bytes past the output's end.
pub fn print(v: Value, out: &mut [u8]) -> usize
    ensures { Written out.old 0 (shown v) result out.new }
{
    if in_range(v) {
        return put_value(out, v);
    }
    0
}
