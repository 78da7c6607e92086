// A model up to its data section, read over the stored tokens into a table of names and a table of constraints.
#![tactic(auto)]

ghost use Rattle.std.specs.Prelude.{Ok, Err, MatchResult, ◌≤◌, length};
ghost use Rattle.tokens.specs.Stored.{Moves, Gives, rows_of};
ghost use Rattle.tokens.specs.Text.{In};
ghost use Rattle.parser.specs.Readers.{opening_in, objective_in};
ghost use Rattle.parser.specs.Parsed.{TitleAt, ObjectiveAt, Bodied, ParsedAs};

use constraints::Record;
use lexer::Mark;
use rules::Refused;
use tokens::Text;

// Whether an objective is a minimum, and the position of its linear form.
#[derive(Clone, Copy)]
struct Aim {
    minimize: bool,
    position: u64,
}

// What stands behind the declarations: the objective, and the number of constraints.
#[derive(Clone, Copy)]
struct Body {
    minimize: bool,
    objective: u64,
    constraints: usize,
}

// The position of a model's string, the number of its names, whether its objective is a minimum and at which position it stands, and
// the number of its constraints.
#[derive(Clone, Copy)]
pub struct Parsed {
    pub title: u64,
    pub names: usize,
    pub minimize: bool,
    pub objective: u64,
    pub constraints: usize,
}

// `OPEN` and a string: the string's position, and the position after it.
fn read_opening(text: Text<'_>, at: usize) -> Result<(usize, usize), Refused>
    ensures { MatchResult result
        (λ w. In (Gives opening_in (TitleAt text.entry.bytes.now text.entry.tokens.now w.0)) text.entry at (Ok w.1))
        (λ e. In (Moves opening_in) text.entry at (Err e)) }
{
    let title = tokens::expect(text, at, Mark::Open as u8)?;
    let end = constraints::title(text, title)?;
    Ok((title, end))
}

// `MAXIMIZE` or `MINIMIZE`, a colon and a linear form, and the position after them.
fn objective(text: Text<'_>, at: usize) -> Result<(Aim, usize), Refused>
    ensures { MatchResult result
        (λ w. In (Gives objective_in (ObjectiveAt text.entry.bytes.now text.entry.tokens.now w.0.minimize w.0.position)) text.entry at (Ok w.1))
        (λ e. In (Moves objective_in) text.entry at (Err e)) }
{
    let (minimize, next) = constraints::goal(text, at)?;
    let form = tokens::expect(text, next, Mark::Colon as u8)?;
    let end = linear::linear(text, form, rules::NESTING_LIMIT)?;
    let aim = Aim {
        minimize,
        position: form as u64,
    };
    Ok((aim, end))
}

// The objective and the constraints, with the first `count` names of the table, and the position after them.
fn read_body(
    text: Text<'_>,
    rows: &mut [Record; 64],
    at: usize,
    count: usize,
) -> Result<(Body, usize), Refused>
    requires { (320 ≤ length text.names.now) × (count ≤ 64) }
    ensures { Bodied text.entry.bytes.now (rows_of count text.entry.names.now) text.entry.tokens.now at result rows.new }
{
    let declared = Text {
        names: &text.names[..count * 5],
        ..text
    };
    let (aim, next) = objective(declared, at)?;
    let (constraints, next) = constraints::constraints(declared, rows, next)?;
    let body = Body {
        minimize: aim.minimize,
        objective: aim.position,
        constraints,
    };
    Ok((body, next))
}

// A model from its first token on, and the position after it.
pub fn parse(
    text: &[u8],
    tokens: &[u64],
    names: &mut [u64; 320],
    constraints: &mut [Record; 64],
) -> Result<(Parsed, usize), Refused>
    ensures { ParsedAs text.now tokens.now result names.new constraints.new }
{
    let unnamed = Text {
        bytes: text,
        names: &[],
        tokens,
    };
    let (title, next) = read_opening(unnamed, 0)?;
    let (count, next) = declarations::declarations(text, tokens, names, next)?;
    let named = Text {
        bytes: text,
        names,
        tokens,
    };
    let (body, next) = read_body(named, constraints, next, count)?;
    let parsed = Parsed {
        title: title as u64,
        names: count,
        minimize: body.minimize,
        objective: body.objective,
        constraints: body.constraints,
    };
    Ok((parsed, next))
}
