// A constraint's domain read over the stored tokens.
#![tactic(auto)]

ghost use Rattle.tokens.specs.Stored.{Moves};
ghost use Rattle.tokens.specs.Pieces.{index_in};
ghost use Rattle.tokens.specs.Text.{In};
ghost use Rattle.domains.specs.Domains.{entry_with, entries_in, domain_in, optional_in};

use lexer::Mark;
use rules::Refused;
use tokens::Text;

// Lower formula `<=` index `<=` upper formula.
pub fn entry(text: Text<'_>, at: usize) -> Result<usize, Refused>
    ensures { In (Moves (entry_with index_in)) text.entry at result }
{
    let lower = formulas::part(text, at, rules::NESTING_LIMIT, Mark::AtMost as u8)?;
    let i = tokens::index(text, lower)?;
    let sign = tokens::expect(text, i, Mark::AtMost as u8)?;
    formulas::inside(text, sign, rules::NESTING_LIMIT)
}

// Entries up to the `)`, at most `left` behind the first one.
fn entries(text: Text<'_>, at: usize, left: usize) -> Result<usize, Refused>
    ensures { In (Moves (entries_in left)) text.entry at result }
{
    let first = entry(text, at)?;
    if left == 0 {
        return tokens::expect(text, first, Mark::RightParen as u8);
    }
    let token = tokens::token_at(text.tokens, first)?;
    if token.kind != Mark::Comma as u64 {
        return tokens::expect(text, first, Mark::RightParen as u8);
    }
    entries(text, token.next, left - 1)
}

// One to four entries in brackets.
fn domain(text: Text<'_>, at: usize) -> Result<usize, Refused>
    ensures { In (Moves domain_in) text.entry at result }
{
    let open = tokens::bracket(text, at, rules::NESTING_LIMIT, Mark::LeftParen as u8)?;
    entries(text, open, rules::INDEX_LIMIT - 1)
}

// A domain where a `(` stands.
pub fn optional_domain(text: Text<'_>, at: usize) -> Result<usize, Refused>
    ensures { In (Moves optional_in) text.entry at result }
{
    let token = tokens::token_at(text.tokens, at)?;
    if token.kind != Mark::LeftParen as u64 {
        return Ok(at);
    }
    domain(text, at)
}
