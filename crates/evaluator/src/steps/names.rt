// Names by their numbers. A name token's payload is the number of its bytes and NAME_UNIT times one more than the name's number,
// 0 for a name that is not in the table; so evaluation needs no text.
ghost use Rattle.std.specs.Prelude.{◌≡◌, map, ◌≤◌, get_or};
ghost use Rattle.evaluator.specs.Steps.Names.{number_kept, resolved_word, number_part, row_word, listed_of, index_number, Opens};

use rules::Refused;
use tokens::{Found, Kind};

// A name that the table tells of: its number, sort, number of indices, and the position of what was declared.
#[derive(Clone, Copy)]
pub struct Listed {
    pub number: usize,
    pub sort: u64,
    pub count: u64,
    pub start: usize,
}

// The number that a token holds for what the table tells of its name.
fn held_number(name: Option<Found>) -> u64
    ensures { (result ≡ number_kept name) × (result ≤ 64) }
{
    let Some(found) = name else {
        return 0;
    };
    if rules::NAME_LIMIT <= found.number {
        return 0;
    }
    found.number as u64 + 1
}

// A token's word, with the number if it is a name.
fn resolved(text: &[u8], names: &[u64], w: u64) -> u64
    ensures { result ≡ resolved_word text.now names.now w }
{
    if w / tokens::KIND_UNIT != Kind::Name as u64 {
        return w;
    }
    let p = w / tokens::PLACE_UNIT % tokens::PLACES;
    let x = w % tokens::PLACE_UNIT;
    let n = x % tokens::NAME_UNIT;
    let name = tokens::find(text, names, p, n);
    let number = held_number(name);
    w - x + n + number * tokens::NAME_UNIT
}

// Gives each name token its number in the table.
pub fn resolve(text: &[u8], names: &[u64], tokens: &mut [u64])
    ensures { tokens.new ≡ map (resolved_word text.now names.now) tokens.old }
{
    for word in tokens.iter_mut() {
        *word = resolved(text, names, *word);
    }
}

// The number that the token at a position holds, 0 past the end.
fn number_at(tokens: &[u64], at: usize) -> u64
    ensures { result ≡ number_part (get_or tokens.now at 0) }
{
    if tokens.len() <= at {
        return 0;
    }
    tokens[at] % tokens::PLACE_UNIT / tokens::NAME_UNIT
}

// Word f of row i of a table of rows of five words, as the name table is one, 0 past its end.
pub fn word_of(names: &[u64], i: usize, f: usize) -> u64
    ensures { result ≡ row_word names.now i f }
{
    if names.len() <= i {
        return 0;
    }
    if names.len() <= f {
        return 0;
    }
    let k = i * 5 + f;
    if names.len() <= k {
        return 0;
    }
    names[k]
}

// The name at a position.
pub fn name_at(names: &[u64], tokens: &[u64], at: usize) -> Option<Listed>
    ensures { result ≡ listed_of names.now (number_part (get_or tokens.now at 0)) }
{
    let n = number_at(tokens, at);
    if n == 0 {
        return None;
    }
    let i = (n - 1) as usize;
    let sort = word_of(names, i, 2);
    let count = word_of(names, i, 3);
    let start = word_of(names, i, 4) as usize;
    Some(Listed {
        number: i,
        sort,
        count,
        start,
    })
}

// The number of the name at a position, 0 where no visible name stands there.
pub fn index_number(tokens: &[u64], level: usize, at: usize) -> usize
    ensures { result ≡ index_number level (get_or tokens.now at 0) }
{
    if tokens.len() <= at {
        return 0;
    }
    if tokens[at] / tokens::KIND_UNIT != Kind::Name as u64 {
        return 0;
    }
    let n = number_at(tokens, at);
    if n == 0 {
        return 0;
    }
    let i = (n - 1) as usize;
    if level <= i {
        return 0;
    }
    i
}

// `(`, an index and a comma, after `SUM` or `S`.
pub fn head(tokens: &[u64], level: usize, at: usize) -> Result<(usize, usize), Refused>
    ensures { Opens tokens.now level at result }
{
    let index = super::passing::skip(tokens, at);
    let token = tokens::token_at(tokens, index)?;
    let number = index_number(tokens, level, index);
    let next = super::passing::skip(tokens, token.next);
    Ok((number, next))
}
