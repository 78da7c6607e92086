// A model text read into tables: its tokens, its names, its constraints and its data.
#![tactic(auto)]

ghost use Rattle.std.specs.Prelude.{◌≡◌, ◌≤◌, length, take};
ghost use Rattle.tokens.specs.Stored.{rows_of};
ghost use Rattle.evaluator.specs.Steps.Names.{Resolves};
ghost use Rattle.parser.specs.Parsed.{ParsedAs};
ghost use Rattle.data.specs.Sections.{ReadsData};
ghost use Rattle.model.specs.ReadAs.{Scans, Finishes, ReadAs};

use constraints::Record;
use data::Given;
use rules::Refused;
use store::Row;
use tokens::Text;

// The number of a text's tokens; the position of its string, the number of its names, whether its objective is a minimum and at
// which position it stands, the number of its constraints; the place of the data section's string and the number of its bytes,
// the number of data elements.
#[derive(Clone, Copy)]
pub struct Model {
    pub tokens: usize,
    pub title: u64,
    pub names: usize,
    pub minimize: bool,
    pub objective: u64,
    pub constraints: usize,
    pub section: u64,
    pub bytes: u64,
    pub given: usize,
}

// The tokens, in a table with room for them.
fn scan(text: &[u8], tokens: &mut [u64]) -> usize
    requires { length tokens.old ≡ 16385 }
    ensures { Scans text.now result tokens.new }
{
    tokens::scanner::scan(text, tokens)
}

// The structure, from the first n tokens.
fn parsed(
    text: &[u8],
    tokens: &[u64],
    n: usize,
    names: &mut [u64; 320],
    constraints: &mut [Record; 64],
) -> Result<(parser::Parsed, usize), Refused>
    requires { n ≤ length tokens.now }
    ensures { ParsedAs text.now (take n tokens.now) result names.new constraints.new }
{
    parser::parse(text, &tokens[..n], names, constraints)
}

// Gives each name among the first n tokens its number in the first `count` rows of the table.
fn resolve(text: &[u8], names: &[u64], count: usize, tokens: &mut [u64], n: usize)
    requires { (n ≤ length tokens.old) × (320 ≤ length names.now) × (count ≤ 64) }
    ensures { Resolves text.now (rows_of count names.now) (take n tokens.old) (take n tokens.new) }
{
    let k = count * 5;
    evaluator::steps::names::resolve(text, &names[..k], &mut tokens[..n]);
}

// The data section and the end, from the token at a position among the first n on, with the first `count` names.
fn read_section(
    text: &[u8],
    names: &[u64],
    count: usize,
    tokens: &[u64],
    n: usize,
    store: &mut [Row; 2048],
    at: usize,
) -> Result<Given, Refused>
    requires { (n ≤ length tokens.now) × (320 ≤ length names.now) × (count ≤ 64) }
    ensures { ReadsData text.now (rows_of count names.now) (take n tokens.now) at result store.new }
{
    let k = count * 5;
    let known = Text {
        bytes: text,
        names: &names[..k],
        tokens: &tokens[..n],
    };
    data::read(known, store, at)
}

// The names of a structure resolved, and what stands behind it, from the token at a position among the first n on.
fn finish(
    text: &[u8],
    tokens: &mut [u64; 16385],
    names: &[u64],
    store: &mut [Row; 2048],
    n: usize,
    structure: parser::Parsed,
    at: usize,
) -> Result<Model, Refused>
    requires { (n ≤ 16385) × (320 ≤ length names.now) × (structure.names ≤ 64) }
    ensures { Finishes text.now tokens.old names.now n structure at result tokens.new store.new }
{
    let count = structure.names;
    resolve(text, names, count, tokens, n);
    let section = read_section(text, names, count, tokens, n, store, at)?;
    Ok(Model {
        tokens: n,
        title: structure.title,
        names: count,
        minimize: structure.minimize,
        objective: structure.objective,
        constraints: structure.constraints,
        section: section.place,
        bytes: section.length,
        given: section.count,
    })
}

// Reads a text into tables.
pub fn read(
    text: &[u8],
    tokens: &mut [u64; 16385],
    names: &mut [u64; 320],
    constraints: &mut [Record; 64],
    store: &mut [Row; 2048],
) -> Result<Model, Refused>
    ensures { ReadAs text.now result tokens.new names.new constraints.new store.new }
{
    let n = scan(text, tokens);
    let (structure, at) = parsed(text, tokens, n, names, constraints)?;
    finish(text, tokens, names, store, n, structure, at)
}
