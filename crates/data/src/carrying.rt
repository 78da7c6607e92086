// A portion: its name, its head, and its numbers.
ghost use Rattle.language.specs.Data.{portion_of};
ghost use Rattle.data.specs.Reading.Lists.{Heads};
ghost use Rattle.data.specs.Portions.{head_for, CarriesOut, Uses, Fills};
ghost use Rattle.tokens.specs.Text.{In};

use super::reading::entries::Entries;
use super::reading::few::Few;
use super::reading::heads::Plan;
use super::running::Portion;
use super::{layouts, running};
use rules::{Refused, refused};
use store::Row;
use tokens::{Known, Sort, Text};

// The head of a portion whose name stands at `place` and has `count` indices; without indices there is none.
fn head_of(text: Text<'_>, at: usize, place: u64, count: usize) -> Result<Plan, Refused>
    ensures { In (Heads (head_for place count)) text.entry at count result }
{
    if count == 0 {
        return Ok(Plan {
            runs: Few::none(),
            entries: Entries::none(),
            next: at,
        });
    }
    super::reading::heads::head(text, at, place, count)
}

// The head and the numbers of a portion behind its name; whether the name is an integer.
fn carry_out(
    text: Text<'_>,
    table: &mut [Row; 2048],
    given: usize,
    name: Known,
    whole: bool,
) -> Result<(usize, usize), Refused>
    ensures { In CarriesOut text.entry table.old given name.next name.number name.count name.place whole result table.new }
{
    let count = name.count as usize;
    let head = head_of(text, name.next, name.place, count)?;
    let start = evaluator::steps::names::word_of(text.names, name.number, 4) as usize;
    let layout = layouts::layout_of(text, name.number, start, name.count);
    let portion = Portion {
        name: name.number,
        place: name.place,
        whole,
        start,
        layout,
        order: head.runs,
    };
    running::runs(
        text.names,
        text.tokens,
        table,
        given,
        head.next,
        portion,
        0,
        head.entries,
    )
}

// The portion of a name that was read: an integer or a real.
fn of_name(
    text: Text<'_>,
    table: &mut [Row; 2048],
    given: usize,
    name: Known,
) -> Result<(usize, usize), Refused>
    ensures { In Uses text.entry table.old given name.next name.number name.sort name.count name.place result table.new }
{
    let whole = name.sort == Sort::Integer as u64;
    if whole | (name.sort == Sort::Real as u64) {
        return carry_out(text, table, given, name, whole);
    }
    refused!(Misplaced, name.place)
}

// The portion at a position.
pub fn portion(
    text: Text<'_>,
    table: &mut [Row; 2048],
    given: usize,
    at: usize,
) -> Result<(usize, usize), Refused>
    ensures { In (Fills portion_of) text.entry table.old given at result table.new }
{
    let name = tokens::known_name(text, at)?;
    of_name(text, table, given, name)
}
