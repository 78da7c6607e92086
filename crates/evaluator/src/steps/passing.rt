// Tokens that are passed over: they were read before, and what stands there is not tested again.
ghost use Rattle.evaluator.specs.Steps.Passing.{Skips, Ends, Leads};

use lexer::Mark;
use rules::Refused;

// The position behind one token; behind the last one it stays.
pub fn skip(tokens: &[u64], at: usize) -> usize
    ensures { Skips tokens.now at result }
{
    if tokens.len() <= at {
        return at;
    }
    at + 1
}

// The position behind the bracket that closes the one before `at`.
pub fn behind_bracket(tokens: &[u64], at: usize) -> usize
    ensures { Ends tokens.now at result }
{
    let mut depth: usize = 0;
    for i in at..tokens.len() {
        let k = tokens[i] / tokens::KIND_UNIT;
        if (k == Mark::LeftParen as u64) | (k == Mark::LeftBracket as u64) {
            depth += 1;
            continue;
        }
        let closes = (k == Mark::RightParen as u64) | (k == Mark::RightBracket as u64);
        if !closes {
            continue;
        }
        if depth == 0 {
            return i + 1;
        }
        depth -= 1;
    }
    at.max(tokens.len())
}

// An optional `+` or `-`.
pub fn sign(tokens: &[u64], at: usize) -> Result<(bool, usize), Refused>
    ensures { Leads tokens.now at result }
{
    let token = tokens::token_at(tokens, at)?;
    let minus = token.kind == Mark::Minus as u64;
    if (token.kind == Mark::Plus as u64) | minus {
        return Ok((minus, token.next));
    }
    Ok((false, at))
}
