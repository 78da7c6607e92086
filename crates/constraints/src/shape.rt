// What the tokens of a constraint tell of its shape, beside its positions: whether its left side is one variable, and how many entries
// its domain has.
ghost use Rattle.constraints.specs.Shape.{IsAlone, IsBare, EntriesAre, SizeIs};
ghost use Rattle.tokens.specs.Text.{In};

use lexer::Mark;
use tokens::Text;

// Whether neither `+` nor `-` stands at a position.
fn is_alone(tokens: &[u64], at: usize) -> bool
    ensures { IsAlone tokens.now at result }
{
    let Ok(token) = tokens::token_at(tokens, at) else {
        return false;
    };
    !((token.kind == Mark::Plus as u64) | (token.kind == Mark::Minus as u64))
}

// Whether the left side at a position is one variable, without sign or factor.
pub fn is_bare(text: Text<'_>, at: usize) -> bool
    ensures { In IsBare text.entry at result }
{
    let Ok(token) = tokens::token_at(text.tokens, at) else {
        return false;
    };
    let name = linear::variable(
        text.bytes,
        text.names,
        token.kind,
        token.place,
        token.payload,
    );
    let Some(name) = name else {
        return false;
    };
    let nest = rules::NESTING_LIMIT;
    let end = formulas::subscripts(text, token.next, nest, name.count);
    let Ok(next) = end else {
        return false;
    };
    is_alone(text.tokens, next)
}

// How many entries stand from a position on.
fn entries(text: Text<'_>, at: usize) -> usize
    ensures { In EntriesAre text.entry at result }
{
    let mut start = at;
    for n in 1..rules::INDEX_LIMIT {
        let Ok(end) = domains::entry(text, start) else {
            return n;
        };
        let Ok(token) = tokens::token_at(text.tokens, end) else {
            return n;
        };
        if token.kind != Mark::Comma as u64 {
            return n;
        }
        start = token.next;
    }
    rules::INDEX_LIMIT
}

// How many entries the domain at a position has, none where no domain stands there.
pub fn entries_at(text: Text<'_>, at: usize) -> usize
    ensures { In SizeIs text.entry at result }
{
    let Ok(token) = tokens::token_at(text.tokens, at) else {
        return 0;
    };
    if token.kind != Mark::LeftParen as u64 {
        return 0;
    }
    entries(text, token.next)
}
