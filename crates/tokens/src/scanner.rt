// A text's tokens, read once from left to right into a lent table, one word each.
ghost use Rattle.std.specs.Prelude.{◌≡◌, [], ◌<◌, ◌≤◌, length};
ghost use Rattle.rules.specs.Limits.{byte_limit};
ghost use Rattle.lexer.specs.View.{kind_of, is_last};
ghost use Rattle.tokens.specs.Stored.{word_of};
ghost use Rattle.tokens.specs.Scanner.Table.{kind_number, value_payload, payload_of, Plain, Packs, Scanned};

use super::Kind;
use lexer::{Source, Token};

// A table of this length has room for the tokens of every text.
pub const TABLE: usize = rules::BYTE_LIMIT + 1;

// ---- one token

fn kind_of(token: Token) -> u64
    ensures { (result ≡ kind_number token) × (result < 256) }
{
    match token {
        Token::Mark(m) => m.number(),
        Token::Name(_, _) => Kind::Name as u64,
        Token::Literal(true, _) => Kind::Whole as u64,
        Token::Literal(false, _) => Kind::Pointed as u64,
        Token::String(_, _) => Kind::String as u64,
        Token::End => Kind::End as u64,
        Token::Wrong(_) => Kind::Wrong as u64,
    }
}

// A literal's value, 8 m + s.
fn value_payload(v: value::Value) -> u64
    requires { Plain v }
    ensures { result ≡ value_payload v }
{
    v.m as u64 * 8 + v.s as u64
}

fn payload_of(token: Token) -> u64
    requires { Packs token }
    ensures { result ≡ payload_of token }
{
    match token {
        Token::Mark(_) | Token::End => 0,
        Token::Name(_, n) | Token::String(_, n) => n as u64,
        Token::Literal(_, v) => value_payload(v),
        Token::Wrong(r) => u32::from(r) as u64,
    }
}

// The token as a word.
fn word(token: Token, place: usize) -> u64
    requires { Packs token × (place ≤ byte_limit) }
    ensures { result ≡ word_of (kind_number token) place (payload_of token) }
{
    kind_of(token) * super::KIND_UNIT + place as u64 * super::PLACE_UNIT + payload_of(token)
}

// Does no token come after it?
fn is_last(token: Token) -> bool
    ensures { result ≡ is_last (kind_of [] token) }
{
    matches!(token, Token::End | Token::Wrong(_))
}

// ---- the table

// Writes the tokens of a text that is not too long, as far as the table reaches.
fn fill(text: &[u8], table: &mut [u64]) -> usize
    requires { length text.now ≤ byte_limit }
    ensures { Scanned text.now table.old result table.new }
{
    let mut source = Source::start();
    for i in 0..table.len() {
        let read = source.next(text);
        table[i] = word(read.token, read.place);
        if is_last(read.token) {
            return i + 1;
        }
        source = read.next;
    }
    table.len()
}

// Writes the tokens of a text, up to the end or the first refusal, and answers how many. A table that is too short is filled.
pub fn scan(text: &[u8], table: &mut [u64]) -> usize
    ensures { Scanned text.now table.old result table.new }
{
    if text.len() <= rules::BYTE_LIMIT {
        return fill(text, table);
    }
    if table.is_empty() {
        return 0;
    }
    table[0] = word(Token::Wrong(rules::Refusal::LongText), rules::BYTE_LIMIT);
    1
}
