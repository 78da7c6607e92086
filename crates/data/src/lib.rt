// The data section, carried out as it is read, into a table that holds the store.
#![tactic(auto)]

mod carrying;
mod entering;
mod layouts;
mod reading;
mod running;
mod sections;

ghost use Rattle.data.specs.Sections.{ReadsData};
ghost use Rattle.tokens.specs.Text.{In};

use rules::Refused;
use store::Row;
use tokens::Text;

// The place of the data section's title and the number of its bytes, 0 where there is no data section; and how many data
// elements there are. Or a refusal.
#[derive(Clone, Copy)]
pub struct Given {
    pub place: u64,
    pub length: u64,
    pub count: usize,
}

// At most one data section, `CLOSE` and the text's end. The store starts empty.
pub fn read(text: Text<'_>, table: &mut [Row; 2048], at: usize) -> Result<Given, Refused>
    ensures { In ReadsData text.entry at result table.new }
{
    let section = sections::optional_section(text, table, at)?;
    reading::ends::end(text.tokens, section.next)?;
    Ok(Given {
        place: section.place,
        length: section.length,
        count: section.count,
    })
}
