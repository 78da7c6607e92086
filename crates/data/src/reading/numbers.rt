// A number's sign and literal.
ghost use Rattle.std.specs.Prelude.{◌≡◌, ◌/◌, pos};
ghost use Rattle.language.specs.Data.{with_minus};
ghost use Rattle.data.specs.Reading.Readers.{Says, numbered, literal_in, number_in};

use lexer::Mark;
use rules::{Refused, refused};
use tokens::Kind;

// A value, the place of its sign, and the position behind it.
#[derive(Clone, Copy)]
pub struct Numbered {
    pub value: value::Value,
    pub place: u64,
    pub next: usize,
}

// The mantissa of a literal's payload, with its sign. `minus` is the sign that was read: data, not a step.
pub fn signed(x: u64, minus: bool) -> i64
    ensures { result ≡ with_minus minus (pos (x / 8)) }
{
    let m = (x / 8) as i64;
    if minus {
        return 0 - m;
    }
    m
}

// The literal behind a number's sign. `minus` is the sign that was read: data, not a step.
fn literal(tokens: &[u64], at: usize, sign: u64, minus: bool) -> Result<Numbered, Refused>
    ensures { Says numbered (literal_in sign minus) tokens.now at result }
{
    let token = tokens::token_at(tokens, at)?;
    if (token.kind == Kind::Whole as u64) | (token.kind == Kind::Pointed as u64) {
        let m = signed(token.payload, minus);
        let s = (token.payload % 8) as usize;
        return Ok(Numbered {
            value: value::Value { m, s },
            place: sign,
            next: token.next,
        });
    }
    refused!(Misplaced, token.place)
}

// `+` or `-`, then a literal.
pub fn number(tokens: &[u64], at: usize) -> Result<Numbered, Refused>
    ensures { Says numbered number_in tokens.now at result }
{
    let token = tokens::token_at(tokens, at)?;
    let minus = token.kind == Mark::Minus as u64;
    if (token.kind == Mark::Plus as u64) | minus {
        return literal(tokens, token.next, token.place, minus);
    }
    refused!(Missing, token.place)
}
