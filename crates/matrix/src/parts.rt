// The parts of a constraint from its row of the table: its place, where its sides and the entries of its domain stand, and what its
// relation says. What an answer tells is in specs/Parts.antt.
ghost use Rattle.matrix.specs.Parts.Parts.{PlaceIs, FirstIs, PartsAre};

use constraints::Record;
use lexer::Mark;

// A constraint's place, the positions of its sides and of the first entry of its domain, and how many entries there are. `bare`:
// its left side is one variable; `floor`: a floor follows its right side; `flips`: both sides of its row are negated; `equal`: it
// is a row of `=`; `lower`, `upper`: which bound its right side is.
#[derive(Clone, Copy)]
pub struct Parts {
    pub place: u64,
    pub left: usize,
    pub right: usize,
    pub at: usize,
    pub count: usize,
    pub bare: bool,
    pub floor: bool,
    pub flips: bool,
    pub equal: bool,
    pub lower: bool,
    pub upper: bool,
}

// The place of the string at a position.
fn place_at(tokens: &[u64], at: usize) -> u64
    ensures { PlaceIs tokens.now at result }
{
    match tokens::token_at(tokens, at) {
        Ok(token) => token.place,
        Err(e) => e.place,
    }
}

// Where the first entry of the domain at a position stands; the position itself where no domain stands there.
fn first_entry(tokens: &[u64], at: usize) -> usize
    ensures { FirstIs tokens.now at result }
{
    let Ok(token) = tokens::token_at(tokens, at) else {
        return at;
    };
    if token.kind == Mark::LeftParen as u64 {
        return token.next;
    }
    at
}

// The parts of the constraint in row k.
pub fn read(tokens: &[u64], table: &[Record], k: usize) -> Parts
    ensures { PartsAre tokens.now table.now k result }
{
    let row = constraints::row_at(table, k);
    let place = place_at(tokens, row.title);
    let at = first_entry(tokens, row.domain);
    let mark = row.mark.number();
    Parts {
        place,
        left: row.left,
        right: row.right,
        at,
        count: row.entries,
        bare: row.bare,
        floor: row.floor,
        flips: mark == Mark::AtLeast as u64,
        equal: mark == Mark::Equals as u64,
        lower: mark != Mark::AtMost as u64,
        upper: mark != Mark::AtLeast as u64,
    }
}
