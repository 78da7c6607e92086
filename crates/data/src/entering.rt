// One number: its tests, and its row in the store.
ghost use Rattle.store.specs.Element.{list_of};
ghost use Rattle.data.specs.Stores.{Enters};
ghost use Rattle.data.specs.Taking.{Suits, Accepts, Takes};

use super::reading::numbers;
use super::reading::numbers::Numbered;
use super::running::Portion;
use evaluator::Stored;
use rules::{Refused, refused};
use store::{Element, InsertError, Row};
use value::Value;

// A new datum, whose sign stands at p: refused if there is one already, or if the table is full.
fn enter(
    table: &mut [Row; 2048],
    given: usize,
    name: usize,
    e: Element,
    p: u64,
    v: Value,
) -> Result<usize, Refused>
    ensures { Enters table.old given name (list_of e) p v result table.new }
{
    let key = store::key_of(name, e);
    let word = store::pack(v);
    match store::insert(table, given, key, word) {
        Ok(()) => Ok(given + 1),
        Err(InsertError::Present) => refused!(Missing, p),
        Err(InsertError::NoRoom) => refused!(Full, p),
    }
}

// May the value stand for an integer, or for a real?
fn suits(whole: bool, v: Value) -> bool
    ensures { Suits whole v result }
{
    if !whole {
        return true;
    }
    i64::try_from(v).is_ok()
}

// A number for the element e: whole for an integer, inside the domain, given once.
fn accept(
    names: &[u64],
    tokens: &[u64],
    table: &mut [Row; 2048],
    given: usize,
    x: Portion,
    e: Element,
    number: Numbered,
) -> Result<usize, Refused>
    ensures { Accepts names.now tokens.now table.old given x e number.place number.value result table.new }
{
    if !suits(x.whole, number.value) {
        return refused!(NotWhole, number.place);
    }
    let stored = Stored {
        names,
        tokens,
        table,
        given,
    };
    evaluator::within(stored, x.name, x.start, e, x.place)?;
    enter(table, given, x.name, e, number.place, number.value)
}

// The number at a position, for the element e.
pub fn take(
    names: &[u64],
    tokens: &[u64],
    table: &mut [Row; 2048],
    given: usize,
    at: usize,
    x: Portion,
    e: Element,
) -> Result<(usize, usize), Refused>
    ensures { Takes names.now tokens.now table.old given at x e result table.new }
{
    let number = numbers::number(tokens, at)?;
    let count = accept(names, tokens, table, given, x, e, number)?;
    Ok((number.next, count))
}
