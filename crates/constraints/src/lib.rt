// Relations, objectives and constraints read over the stored tokens; each constraint becomes a row of a table.
#![tactic(auto)]

mod shape;

ghost use Rattle.std.specs.Prelude.{Ok, Err, MatchResult, ◌≡◌, ◌≤◌, length};
ghost use Rattle.lexer.specs.Numbers.{number};
ghost use Rattle.tokens.specs.Stored.{from, Moves, Gives};
ghost use Rattle.tokens.specs.Text.{In};
ghost use Rattle.constraints.specs.Readers.{title_in, relation_in, floor_formula_in, floor_in, comparison_in, goal_in, constraint_in, more_in, constraints_in};
ghost use Rattle.constraints.specs.Rows.{IsRelation, IsFloor, Compares, IsTrue, Located, no_row, row_at, RowOf, Constrained};

use lexer::Mark;
use rules::{Refusal, Refused, refused};
use tokens::{Kind, Text};

// The mark of a relation, where its right side stands, and whether it has a floor.
#[derive(Clone, Copy)]
struct Bounds {
    mark: Mark,
    right: usize,
    floor: bool,
}

// Where a constraint's string, sides and domain stand, the mark of its relation and whether it has a floor.
#[derive(Clone, Copy)]
struct Sites {
    title: usize,
    left: usize,
    mark: Mark,
    right: usize,
    floor: bool,
    domain: usize,
}

// A row of the table of constraints: where the string, the sides and the domain stand, and the mark of the relation. `bare`: the left
// side is one variable; `floor`: a floor follows the right side; `entries`: how many entries the domain has.
#[derive(Clone, Copy)]
pub struct Record {
    pub title: usize,
    pub left: usize,
    pub mark: Mark,
    pub bare: bool,
    pub floor: bool,
    pub entries: usize,
    pub right: usize,
    pub domain: usize,
}

impl Record {
    pub fn none() -> Self
        ensures { result ≡ no_row }
    {
        Record {
            title: 0,
            left: 0,
            mark: Mark::AtMost,
            bare: false,
            floor: false,
            entries: 0,
            right: 0,
            domain: 0,
        }
    }
}

// Why constraints are refused, and how many rows of the table were filled before.
#[derive(Clone, Copy, Debug, PartialEq, Eq)]
pub struct Stopped {
    pub count: usize,
    pub refused: Refused,
}

impl From<Stopped> for Refused {
    ghost from_gives = { λ s r. r ≡ s.refused };

    fn from(stopped: Stopped) -> Refused {
        stopped.refused
    }
}

// Row k, an empty one where there is none.
pub fn row_at(table: &[Record], k: usize) -> Record
    ensures { result ≡ row_at table.now k }
{
    table.get(k).copied().unwrap_or(Record::none())
}

// A string.
pub fn title(text: Text<'_>, at: usize) -> Result<usize, Refused>
    ensures { In (Moves title_in) text.entry at result }
{
    let token = tokens::token_at(text.tokens, at)?;
    if token.kind != Kind::String as u64 {
        return refused!(Misplaced, token.place);
    }
    Ok(token.next)
}

// One of `<= >= =`: its mark, and the position after it.
fn relation(text: Text<'_>, at: usize) -> Result<(Mark, usize), Refused>
    ensures { MatchResult result
        (λ w. In (Gives relation_in (IsRelation (number w.0))) text.entry at (Ok w.1))
        (λ e. In (Moves relation_in) text.entry at (Err e)) }
{
    let token = tokens::token_at(text.tokens, at)?;
    if token.kind == Mark::AtMost as u64 {
        return Ok((Mark::AtMost, token.next));
    }
    if token.kind == Mark::AtLeast as u64 {
        return Ok((Mark::AtLeast, token.next));
    }
    if token.kind == Mark::Equals as u64 {
        return Ok((Mark::Equals, token.next));
    }
    refused!(Misplaced, token.place)
}

// `MAXIMIZE` or `MINIMIZE`: whether the objective is a minimum, and the position after the word.
pub fn goal(text: Text<'_>, at: usize) -> Result<(bool, usize), Refused>
    ensures { MatchResult result
        (λ w. In (Gives goal_in (IsTrue w.0)) text.entry at (Ok w.1))
        (λ e. In (Moves goal_in) text.entry at (Err e)) }
{
    let token = tokens::token_at(text.tokens, at)?;
    let maximize = token.kind == Mark::Maximize as u64;
    let minimize = token.kind == Mark::Minimize as u64;
    if maximize | minimize {
        return Ok((minimize, token.next));
    }
    refused!(Misplaced, token.place)
}

// Whether a string stands there; it stays.
fn more(text: Text<'_>, at: usize) -> Result<bool, Refused>
    ensures { MatchResult result
        (λ w. In (Gives more_in (IsTrue w)) text.entry at (Ok at))
        (λ e. In (Moves more_in) text.entry at (Err e)) }
{
    let token = tokens::token_at(text.tokens, at)?;
    Ok(token.kind == Kind::String as u64)
}

// `>=` and a formula: a floor behind its `,`.
fn floor_formula(text: Text<'_>, at: usize) -> Result<usize, Refused>
    ensures { In (Moves floor_formula_in) text.entry at result }
{
    let sign = tokens::expect(text, at, Mark::AtLeast as u8)?;
    formulas::formula(text, sign, rules::NESTING_LIMIT)
}

// A floor, which may follow the right side of a `<=`: whether it stands there, and the position after it.
fn optional_floor(text: Text<'_>, mark: Mark, at: usize) -> Result<(bool, usize), Refused>
    ensures { MatchResult result
        (λ w. In (Gives (floor_in (number mark)) (IsFloor (number mark) (from text.entry.bytes.now text.entry.tokens.now at) w.0)) text.entry at (Ok w.1))
        (λ e. In (Moves (floor_in (number mark))) text.entry at (Err e)) }
{
    if mark.number() != Mark::AtMost as u64 {
        return Ok((false, at));
    }
    let token = tokens::token_at(text.tokens, at)?;
    if token.kind != Mark::Comma as u64 {
        return Ok((false, at));
    }
    let end = floor_formula(text, token.next)?;
    Ok((true, end))
}

// Relation, formula, optional floor, and the position after them.
fn comparison(text: Text<'_>, at: usize) -> Result<(Bounds, usize), Refused>
    ensures { MatchResult result
        (λ w. In (Gives comparison_in (Compares text.entry.bytes.now text.entry.tokens.now w.0)) text.entry at (Ok w.1))
        (λ e. In (Moves comparison_in) text.entry at (Err e)) }
{
    let (mark, right) = relation(text, at)?;
    let behind = formulas::formula(text, right, rules::NESTING_LIMIT)?;
    let (floor, end) = optional_floor(text, mark, behind)?;
    let bounds = Bounds { mark, right, floor };
    Ok((bounds, end))
}

// String, linear form, relation with its right side, optional domain, and the position after them.
fn locate(text: Text<'_>, at: usize) -> Result<(Sites, usize), Refused>
    ensures { MatchResult result
        (λ w. In (Gives constraint_in (Located text.entry.bytes.now text.entry.tokens.now w.0)) text.entry at (Ok w.1))
        (λ e. In (Moves constraint_in) text.entry at (Err e)) }
{
    let left = title(text, at)?;
    let behind = linear::linear(text, left, rules::NESTING_LIMIT)?;
    let (bounds, domain) = comparison(text, behind)?;
    let end = domains::optional_domain(text, domain)?;
    let sites = Sites {
        title: at,
        left,
        mark: bounds.mark,
        right: bounds.right,
        floor: bounds.floor,
        domain,
    };
    Ok((sites, end))
}

// A constraint: its row, and the position after it.
fn constraint(text: Text<'_>, at: usize) -> Result<(Record, usize), Refused>
    ensures { MatchResult result
        (λ w. In (Gives constraint_in (RowOf text.entry.bytes.now text.entry.tokens.now w.0)) text.entry at (Ok w.1))
        (λ e. In (Moves constraint_in) text.entry at (Err e)) }
{
    let (sites, end) = locate(text, at)?;
    let bare = shape::is_bare(text, sites.left);
    let entries = shape::entries_at(text, sites.domain);
    let row = Record {
        title: sites.title,
        left: sites.left,
        mark: sites.mark,
        bare,
        floor: sites.floor,
        entries,
        right: sites.right,
        domain: sites.domain,
    };
    Ok((row, end))
}

// The refusal of a constraint more than there is room for: 6 at its token.
fn full(text: Text<'_>, at: usize) -> Refused
    ensures { In (Moves (constraints_in 0)) text.entry at (Err result) }
{
    match tokens::token_at(text.tokens, at) {
        Ok(token) => Refused {
            refusal: Refusal::Full,
            place: token.place,
        },
        Err(refused) => refused,
    }
}

// One or more constraints, into the first rows of the table: how many there are, and the position after them. A 65th is refused with
// 6 at its token.
fn read_rows(text: Text<'_>, rows: &mut [Record], at: usize) -> Result<(usize, usize), Stopped>
    requires { 64 ≤ length rows.old }
    ensures { In Constrained text.entry rows.old at result rows.new }
{
    let mut start = at;
    for n in 0..rules::CONSTRAINT_LIMIT {
        let (row, next) = match constraint(text, start) {
            Ok(read) => read,
            Err(refused) => return Err(Stopped { count: n, refused }),
        };
        rows[n] = row;
        let goes_on = match more(text, next) {
            Ok(goes_on) => goes_on,
            Err(refused) => return Err(Stopped {
                count: n + 1,
                refused,
            }),
        };
        if !goes_on {
            return Ok((n + 1, next));
        }
        start = next;
    }
    let refused = full(text, start);
    Err(Stopped {
        count: rules::CONSTRAINT_LIMIT,
        refused,
    })
}

// All constraints: 1 to 64 rows. How many there are, and the position after them. What stands behind the rows that were filled stays.
pub fn constraints(
    text: Text<'_>,
    rows: &mut [Record; 64],
    at: usize,
) -> Result<(usize, usize), Stopped>
    ensures { In Constrained text.entry rows.old at result rows.new }
{
    read_rows(text, rows, at)
}
