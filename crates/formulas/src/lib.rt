// Formulas read over the stored tokens: the position after a formula, or a refusal. No tree is built. `nest`: how many brackets may
// still open.
#![tactic(auto)]

ghost use Rattle.rules.specs.Limits.{token_limit};
ghost use Rattle.tokens.specs.Stored.{Moves};
ghost use Rattle.tokens.specs.Text.{In};
ghost use Rattle.formulas.specs.Cycle.{inside_in, formula_in, primary_in, term_in, part_in, sum_in, nested_in, named_in, Factors, Summands, Subscripts};

use lexer::Mark;
use rules::{Refused, refused};
use tokens::{Kind, Sort, Text};

// Formula: optional sign, then terms joined by `+` or `-`.
#[cycle(formulas)]
pub fn formula(text: Text<'_>, at: usize, nest: usize) -> Result<usize, Refused>
    ensures { In (Moves (formula_in nest)) text.entry at result }
{
    let lead = tokens::sign(text, at)?;
    let first = term(text, lead, nest)?;
    summands(text, first, nest)
}

// Terms joined by `+` or `-`, behind the first one.
#[cycle(formulas)]
fn summands(text: Text<'_>, at: usize, nest: usize) -> Result<usize, Refused>
    ensures { In Summands text.entry nest token_limit at result }
{
    let mut a = at;
    for _ in 0..rules::TOKEN_LIMIT {
        let token = tokens::token_at(text.tokens, a)?;
        let joined = (token.kind == Mark::Plus as u64) | (token.kind == Mark::Minus as u64);
        if !joined {
            return Ok(a);
        }
        a = term(text, token.next, nest)?;
    }
    Ok(a)
}

// Term: primaries joined by `*`.
#[cycle(formulas)]
fn term(text: Text<'_>, at: usize, nest: usize) -> Result<usize, Refused>
    ensures { In (Moves (term_in nest)) text.entry at result }
{
    let first = primary(text, at, nest)?;
    factors(text, first, nest)
}

// Primaries joined by `*`, behind the first one.
#[cycle(formulas)]
fn factors(text: Text<'_>, at: usize, nest: usize) -> Result<usize, Refused>
    ensures { In Factors text.entry nest token_limit at result }
{
    let mut a = at;
    for _ in 0..rules::TOKEN_LIMIT {
        let token = tokens::token_at(text.tokens, a)?;
        if token.kind != Mark::Times as u64 {
            return Ok(a);
        }
        a = primary(text, token.next, nest)?;
    }
    Ok(a)
}

// Primary: literal, name, `SUM` or formula in brackets.
#[cycle(formulas)]
pub fn primary(text: Text<'_>, at: usize, nest: usize) -> Result<usize, Refused>
    ensures { In (Moves (primary_in nest)) text.entry at result }
{
    let token = tokens::token_at(text.tokens, at)?;
    if token.kind == Mark::Sum as u64 {
        return sum(text, token.next, nest, token.place);
    }
    if token.kind == Mark::LeftParen as u64 {
        return nested(text, token.next, nest, token.place);
    }
    if token.kind == Kind::Name as u64 {
        let length = token.payload % tokens::NAME_UNIT;
        return named(text, token.next, nest, token.place, length);
    }
    if (token.kind == Kind::Whole as u64) | (token.kind == Kind::Pointed as u64) {
        return Ok(token.next);
    }
    refused!(Misplaced, token.place)
}

// `SUM(index, lower, upper, formula)` behind its word.
#[cycle(formulas)]
fn sum(text: Text<'_>, at: usize, nest: usize, p: u64) -> Result<usize, Refused>
    ensures { In (Moves (sum_in nest p)) text.entry at result }
{
    let head = tokens::head(text, at, nest)?;
    let lower = part(text, head, nest, Mark::Comma as u8)?;
    let upper = part(text, lower, nest, Mark::Comma as u8)?;
    part(text, upper, nest, Mark::RightParen as u8)
}

// A formula and `)`, behind the `(` at p.
#[cycle(formulas)]
fn nested(text: Text<'_>, at: usize, nest: usize, p: u64) -> Result<usize, Refused>
    ensures { In (Moves (nested_in nest p)) text.entry at result }
{
    if nest == 0 {
        return refused!(Full, p);
    }
    part(text, at, nest, Mark::RightParen as u8)
}

// A primary that is the name of n bytes at p.
#[cycle(formulas)]
fn named(text: Text<'_>, at: usize, nest: usize, p: u64, n: u64) -> Result<usize, Refused>
    ensures { In (Moves (named_in text.entry.bytes.now nest p n)) text.entry at result }
{
    let Some(name) = tokens::find(text.bytes, text.names, p, n) else {
        return refused!(BadName, p);
    };
    if (name.sort == Sort::Index as u64) | (name.sort == Sort::Formula as u64) {
        return Ok(at);
    }
    if (name.sort == Sort::Integer as u64) | (name.sort == Sort::Real as u64) {
        return subscripts(text, at, nest, name.count);
    }
    refused!(Misplaced, p)
}

// `[` as many formulas as the name has indices `]`.
#[cycle(formulas)]
pub fn subscripts(text: Text<'_>, at: usize, nest: usize, count: u64) -> Result<usize, Refused>
    ensures { In Subscripts text.entry nest count at result }
{
    if count == 0 {
        return Ok(at);
    }
    let mut a = tokens::bracket(text, at, nest, Mark::LeftBracket as u8)?;
    for _ in 1..count {
        a = part(text, a, nest, Mark::Comma as u8)?;
    }
    part(text, a, nest, Mark::RightBracket as u8)
}

// A formula inside a bracket, and the sign with the number `c` after it.
#[cycle(formulas)]
pub fn part(text: Text<'_>, at: usize, nest: usize, c: u8) -> Result<usize, Refused>
    ensures { In (Moves (part_in nest c)) text.entry at result }
{
    let next = inside(text, at, nest)?;
    tokens::expect(text, next, c)
}

// A formula inside one of `nest` brackets; with none it is never read.
#[cycle(formulas)]
pub fn inside(text: Text<'_>, at: usize, nest: usize) -> Result<usize, Refused>
    ensures { In (Moves (inside_in nest)) text.entry at result }
{
    if nest == 0 {
        return refused!(Full, 0);
    }
    formula(text, at, nest - 1)
}
