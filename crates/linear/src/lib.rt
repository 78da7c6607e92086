// Linear forms read over the stored tokens.
#![tactic(auto)]

ghost use Rattle.std.specs.Prelude.{◌≡◌};
ghost use Rattle.rules.specs.Limits.{token_limit};
ghost use Rattle.tokens.specs.Stored.{Moves};
ghost use Rattle.tokens.specs.Text.{In};
ghost use Rattle.linear.specs.Linear.{variable_of, term_in, sigma_in, terms_in, form_in, body_in, linear_in};

use lexer::Mark;
use rules::{Refused, refused};
use tokens::{Found, Kind, Sort, Text};

// The variable that the token with kind k, place p and payload x names, if it names one.
pub fn variable(text: &[u8], names: &[u64], k: u64, p: u64, x: u64) -> Option<Found>
    ensures { result ≡ variable_of text.now names.now k p x }
{
    if k != Kind::Name as u64 {
        return None;
    }
    let name = tokens::find(text, names, p, x % tokens::NAME_UNIT)?;
    if (name.sort == Sort::Discrete as u64) | (name.sort == Sort::Continuous as u64) {
        return Some(name);
    }
    None
}

// A linear form.
pub fn linear(text: Text<'_>, at: usize, nest: usize) -> Result<usize, Refused>
    ensures { In (Moves (linear_in nest)) text.entry at result }
{
    form(text, at, nest, true)
}

// Optional sign, then terms joined by `+` or `-`.
#[cycle(linear)]
fn form(text: Text<'_>, at: usize, nest: usize, sigmas: bool) -> Result<usize, Refused>
    ensures { In (Moves (form_in sigmas nest)) text.entry at result }
{
    let lead = tokens::sign(text, at)?;
    let first = term(text, lead, nest, sigmas)?;
    terms(text, first, nest, sigmas)
}

// Primaries each followed by `*`, then a variable, or a sigma where `sigmas` are allowed.
#[cycle(linear)]
fn term(text: Text<'_>, at: usize, nest: usize, sigmas: bool) -> Result<usize, Refused>
    ensures { In (Moves (term_in sigmas nest)) text.entry at result }
{
    let mut a = at;
    for _ in 0..rules::TOKEN_LIMIT {
        let token = tokens::token_at(text.tokens, a)?;
        if sigmas & (token.kind == Mark::Sigma as u64) {
            return sigma(text, token.next, nest, token.place);
        }
        if let Some(name) = variable(
            text.bytes,
            text.names,
            token.kind,
            token.place,
            token.payload,
        ) {
            return formulas::subscripts(text, token.next, nest, name.count);
        }
        let factor = formulas::primary(text, a, nest)?;
        a = tokens::expect(text, factor, Mark::Times as u8)?;
    }
    refused!(Full, 0)
}

// Terms joined by `+` or `-`, behind the first one.
#[cycle(linear)]
fn terms(text: Text<'_>, at: usize, nest: usize, sigmas: bool) -> Result<usize, Refused>
    ensures { In (Moves (terms_in sigmas nest token_limit)) text.entry at result }
{
    let mut a = at;
    for _ in 0..rules::TOKEN_LIMIT {
        let token = tokens::token_at(text.tokens, a)?;
        let joined = (token.kind == Mark::Plus as u64) | (token.kind == Mark::Minus as u64);
        if !joined {
            return Ok(a);
        }
        a = term(text, token.next, nest, sigmas)?;
    }
    Ok(a)
}

// A sigma behind its word at p.
#[cycle(linear)]
fn sigma(text: Text<'_>, at: usize, nest: usize, p: u64) -> Result<usize, Refused>
    ensures { In (Moves (sigma_in nest p)) text.entry at result }
{
    let head = tokens::head(text, at, nest)?;
    if nest == 0 {
        return refused!(Full, 0);
    }
    let lower = formulas::part(text, head, nest, Mark::Comma as u8)?;
    let upper = formulas::part(text, lower, nest, Mark::Comma as u8)?;
    let inner = body(text, upper, nest - 1)?;
    tokens::expect(text, inner, Mark::RightParen as u8)
}

// A sigma's body: another sigma, or a linear form without sigma.
#[cycle(linear)]
fn body(text: Text<'_>, at: usize, nest: usize) -> Result<usize, Refused>
    ensures { In (Moves (body_in nest)) text.entry at result }
{
    let token = tokens::token_at(text.tokens, at)?;
    if token.kind == Mark::Sigma as u64 {
        return sigma(text, token.next, nest, token.place);
    }
    form(text, at, nest, false)
}
