// The data section: its title, one or more portions, and `CLOSE`.
ghost use Rattle.language.specs.Data.{data_of};
ghost use Rattle.data.specs.Sections.{rest_in, section_in, FillsAll, Sections};
ghost use Rattle.tokens.specs.Text.{In};

use super::carrying::portion;
use super::reading::ends;
use super::reading::ends::Titled;
use lexer::Mark;
use rules::{Refused, refused};
use store::Row;
use tokens::{Kind, Text};

// The title's place and the number of its bytes, how many data elements there are, and the position behind `CLOSE`.
#[derive(Clone, Copy)]
pub struct Section {
    pub place: u64,
    pub length: u64,
    pub count: usize,
    pub next: usize,
}

// One or more portions, into an empty store.
fn portions_of(
    text: Text<'_>,
    table: &mut [Row; 2048],
    at: usize,
) -> Result<(usize, usize), Refused>
    ensures { In FillsAll text.entry at result table.new }
{
    let mut a = at;
    let mut count = 0;
    for _ in 0..rules::BYTE_LIMIT {
        let (next, n) = portion(text, table, count, a)?;
        let token = tokens::token_at(text.tokens, next)?;
        if token.kind != Kind::Name as u64 {
            return Ok((next, n));
        }
        a = next;
        count = n;
    }
    Ok((a, count))
}

// The portions and `CLOSE`, behind a title.
fn closed(text: Text<'_>, table: &mut [Row; 2048], title: Titled) -> Result<Section, Refused>
    ensures { In (Sections (rest_in text.entry.bytes.now title.place title.length)) text.entry title.next result table.new }
{
    let (close, count) = portions_of(text, table, title.next)?;
    let next = ends::close(text.tokens, close)?;
    Ok(Section {
        place: title.place,
        length: title.length,
        count,
        next,
    })
}

// A data section behind its `INIT`.
fn data_of(text: Text<'_>, table: &mut [Row; 2048], at: usize) -> Result<Section, Refused>
    ensures { In (Sections data_of) text.entry at result table.new }
{
    let title = ends::title(text.tokens, at)?;
    closed(text, table, title)
}

// A data section and its `CLOSE`, or `CLOSE` alone.
pub fn optional_section(
    text: Text<'_>,
    table: &mut [Row; 2048],
    at: usize,
) -> Result<Section, Refused>
    ensures { In (Sections section_in) text.entry at result table.new }
{
    let token = tokens::token_at(text.tokens, at)?;
    if token.kind == Mark::Init as u64 {
        return data_of(text, table, token.next);
    }
    if token.kind != Mark::Close as u64 {
        return refused!(Misplaced, token.place);
    }
    Ok(Section {
        place: 0,
        length: 0,
        count: 0,
        next: token.next,
    })
}
