// The data section's title, its `CLOSE`, and the text's end.
ghost use Rattle.language.specs.Reader.{read_string};
ghost use Rattle.language.specs.Data.{read_close, read_end};
ghost use Rattle.data.specs.Reading.Readers.{Says, titled, passed};

use lexer::Mark;
use rules::{Refused, refused};
use tokens::Kind;

// A string's place and the number of its bytes, and the position behind it.
#[derive(Clone, Copy)]
pub struct Titled {
    pub place: u64,
    pub length: u64,
    pub next: usize,
}

pub fn title(tokens: &[u64], at: usize) -> Result<Titled, Refused>
    ensures { Says titled read_string tokens.now at result }
{
    let token = tokens::token_at(tokens, at)?;
    if token.kind != Kind::String as u64 {
        return refused!(Misplaced, token.place);
    }
    Ok(Titled {
        place: token.place,
        length: token.payload,
        next: token.next,
    })
}

// `CLOSE`; a sign is one number too many.
pub fn close(tokens: &[u64], at: usize) -> Result<usize, Refused>
    ensures { Says passed read_close tokens.now at result }
{
    let token = tokens::token_at(tokens, at)?;
    if (token.kind == Mark::Plus as u64) | (token.kind == Mark::Minus as u64) {
        return refused!(Missing, token.place);
    }
    if token.kind != Mark::Close as u64 {
        return refused!(Misplaced, token.place);
    }
    Ok(token.next)
}

// The text's end.
pub fn end(tokens: &[u64], at: usize) -> Result<usize, Refused>
    ensures { Says passed read_end tokens.now at result }
{
    let token = tokens::token_at(tokens, at)?;
    if token.kind != Kind::End as u64 {
        return refused!(Misplaced, token.place);
    }
    Ok(token.next)
}
