// Tables that are searched by name and element: rows in rising order of their keys, in a slice that the caller lends. Every public function is total: it answers for any slice, any number of rows and any numbers in a struct.
// What a table holds is said in specs/Entries.antt, and kept by the laws of proofs/Held.antt.
#![tactic(auto)]

ghost use Rattle.std.specs.Prelude.{◌≡◌, [], ◌+◌, ◌<◌, ◌≤◌, ◌^◌, length, get_or, ltb, eqb, pos};
ghost use Rattle.store.specs.Element.{list_of, extended};
ghost use Rattle.store.specs.Key.{digit_of, digit_at, name_digit, paired, key_number, key_of, with_digit, name_of, element_of};
ghost use Rattle.store.specs.Table.{no_row, nth_row, key_at, word_at, rank_of, place_of, found_row, appended, Moved, Inserted, Finds};
ghost use Rattle.store.specs.Packed.{packed, unpacked};

use few::Few;

pub mod few;

// At most four whole numbers.
#[derive(Clone, Copy)]
pub struct Element {
    pub numbers: Few<i64>,
}

// The key of a name and an element; keys are ordered word by word.
#[derive(Clone, Copy, PartialEq, Eq, PartialOrd, Ord)]
pub struct Key {
    pub high: u64,
    pub middle: u64,
    pub low: u64,
}

// A row of a table: a key, and the word that belongs to it.
#[derive(Clone, Copy)]
pub struct Row {
    pub key: Key,
    pub word: u64,
}

// Why a row is not inserted.
#[derive(Clone, Copy, Debug, PartialEq, Eq)]
pub enum InsertError {
    Present, // the key has a row already
    NoRoom, // one row more doesn't lie in the table
}

// ---- elements

impl Element {
    pub fn none() -> Self
        ensures { list_of result ≡ [] }
    {
        Element {
            numbers: Few::none(0),
        }
    }

    pub fn length(self) -> usize
        ensures { result ≡ length (list_of self) }
    {
        self.numbers.length()
    }

    // One number more; the same where there are four.
    pub fn with(self, k: i64) -> Self
        ensures { list_of result ≡ extended (list_of self) k }
    {
        Element {
            numbers: self.numbers.with(k),
        }
    }

    // The number at a position, 0 where there is none.
    pub fn at(self, i: usize) -> i64
        ensures { result ≡ get_or (list_of self) i (pos 0) }
    {
        self.numbers.at(i, 0)
    }
}

// ---- keys

// What is added to a number in bounds, so that it is above zero.
const SHIFT: i64 = rules::MANTISSA_LIMIT as i64 + 1;

fn digit(k: i64) -> u64
    ensures { (result ≡ digit_of k) × (result < 2 ^ 31) }
{
    if SHIFT <= k {
        return 0;
    }
    if k <= 0 - SHIFT {
        return 0;
    }
    (k + SHIFT) as u64
}

fn digit_at(e: Element, i: usize) -> u64
    ensures { (result ≡ digit_at (list_of e) i) × (result < 2 ^ 31) }
{
    if i < e.length() {
        return digit(e.at(i));
    }
    0
}

// Names are told apart below this number.
const NAME_BOUND: usize = 1048576;

fn name_digit(name: usize) -> u64
    ensures { (result ≡ name_digit name) × (result < 2 ^ 31) }
{
    name.min(NAME_BOUND) as u64
}

fn pair(x: u64, y: u64) -> u64
    requires { (x < 2 ^ 31) × (y < 2 ^ 31) }
    ensures { result ≡ paired x y }
{
    x * 2147483648 + y
}

pub fn key_of(name: usize, e: Element) -> Key
    ensures { key_number result ≡ key_of name (list_of e) }
{
    let high = pair(name_digit(name), digit_at(e, 0));
    let middle = pair(digit_at(e, 1), digit_at(e, 2));
    let low = digit_at(e, 3);
    Key { high, middle, low }
}

// ---- tables

impl Row {
    pub fn none() -> Self
        ensures { result ≡ no_row }
    {
        let key = Key {
            high: 0,
            middle: 0,
            low: 0,
        };
        Row { key, word: 0 }
    }
}

// Row i, an empty one where there is none.
fn row_at(table: &[Row], i: usize) -> Row
    ensures { result ≡ nth_row table.now i }
{
    if i < table.len() {
        return table[i];
    }
    Row::none()
}

// The word that belongs to the key of row i, 0 where there is no such row.
pub fn word_at(table: &[Row], i: usize) -> u64
    ensures { result ≡ word_at table.now i }
{
    row_at(table, i).word
}

// Is the key of row i below this one?
fn is_below(table: &[Row], i: usize, key: Key) -> bool
    ensures { result ≡ ltb (key_at table.now i) (key_number key) }
{
    row_at(table, i).key < key
}

// Is the key of row i this one?
fn is_at(table: &[Row], i: usize, key: Key) -> bool
    ensures { result ≡ eqb (key_at table.now i) (key_number key) }
{
    row_at(table, i).key == key
}

// How many of the first n rows are below the key, by halving; in a table that isn't sorted, where halving ends, of which the
// library's `binary_search` says nothing: so halving is written here.
fn rank(table: &[Row], n: usize, key: Key) -> usize
    ensures { result ≡ rank_of table.now n (key_number key) }
{
    let mut from = 0;
    let mut to = n;
    while from < to {
        let mid = from + (to - from) / 2;
        if is_below(table, mid, key) {
            from = mid + 1;
            continue;
        }
        to = mid;
    }
    from
}

// The row that has the key, or the row that it would have.
fn locate(table: &[Row], n: usize, key: Key) -> Result<usize, usize>
    ensures { result ≡ place_of table.now n (key_number key) }
{
    let at = rank(table, n, key);
    if n <= at {
        return Err(at);
    }
    if is_at(table, at, key) {
        return Ok(at);
    }
    Err(at)
}

// The row among the first n that has the key.
pub fn find(table: &[Row], n: usize, key: Key) -> Option<usize>
    ensures { result ≡ found_row table.now n (key_number key) }
{
    locate(table, n, key).ok()
}

// How many rows `find_early` tries one by one.
const EARLY: usize = 8;

// The same in a sorted table, for a key that is likely to have one of the first rows: these are tried one by one.
pub fn find_early(table: &[Row], n: usize, key: Key) -> Option<usize>
    ensures { Finds table.now n (key_number key) result }
{
    for i in 0..n.min(EARLY) {
        if is_at(table, i, key) {
            return Some(i);
        }
    }
    find(table, n, key)
}

// Writes row n, or nothing where it doesn't lie in the table.
pub fn append(table: &mut [Row], n: usize, key: Key, word: u64)
    ensures { table.new ≡ appended table.old n key word }
{
    if n < table.len() {
        table[n] = Row { key, word };
    }
}

// Moves the rows from `from` on and below `to` up by one.
fn move_up(table: &mut [Row], from: usize, to: usize)
    requires { (from ≤ to) × (to + 1 ≤ length table.old) }
    ensures { Moved table.old from to table.new }
{
    table.copy_within(from..to, from + 1);
}

// A row more where its key belongs, the rows above it moved up. Nothing changes where the key has a row already, or where row n
// doesn't lie in the table.
pub fn insert(table: &mut [Row], n: usize, key: Key, word: u64) -> Result<(), InsertError>
    ensures { Inserted table.old n (key_number key) word result table.new }
{
    let Err(at) = locate(table, n, key) else {
        return Err(InsertError::Present);
    };
    if table.len() <= n {
        return Err(InsertError::NoRoom);
    }
    move_up(table, at, n);
    table[at] = Row { key, word };
    Ok(())
}

// ---- keys read back

// The number of the name whose key row i has.
pub fn name_at(table: &[Row], i: usize) -> usize
    ensures { result ≡ name_of (key_at table.now i) }
{
    let key = row_at(table, i).key;
    (key.high / 2147483648) as usize
}

// One number more, by its digit; the same where the digit is 0.
fn with_digit(e: Element, d: u64) -> Element
    requires { d < 2 ^ 31 }
    ensures { list_of result ≡ with_digit (list_of e) d }
{
    if d == 0 {
        return e;
    }
    e.with(d as i64 - SHIFT)
}

// The element whose key row i has.
pub fn element_at(table: &[Row], i: usize) -> Element
    ensures { list_of result ≡ element_of (key_at table.now i) }
{
    let key = row_at(table, i).key;
    let first = with_digit(Element::none(), key.high % 2147483648);
    let second = with_digit(first, key.middle / 2147483648 % 2147483648);
    let third = with_digit(second, key.middle % 2147483648);
    with_digit(third, key.low % 2147483648)
}

// ---- values as words

pub fn pack(v: value::Value) -> u64
    ensures { result ≡ packed v }
{
    let s = v.s;
    if rules::SCALE_LIMIT < s {
        return 0;
    }
    digit(v.m) * 8 + s as u64
}

pub fn unpack(w: u64) -> value::Value
    ensures { result ≡ unpacked w }
{
    let m = (w / 8) as i64 - SHIFT;
    value::Value {
        m,
        s: (w % 8) as usize,
    }
}
