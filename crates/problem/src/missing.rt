// Missing data by declaration: every integer and every real has a value at each element of its declared domain.
ghost use Rattle.store.specs.Element.{list_of};
ghost use Rattle.problem.specs.Missing.Given.{IsGiven, DomainGiven, NameGiven, AllGiven};
ghost use Rattle.evaluator.specs.Context.{Over};

use elements::walk::Walk;
use evaluator::steps::names;
use evaluator::steps::scope::Scope;
use evaluator::{Context, Stored};
use rules::{Refused, refused};
use store::{Element, Row};
use tokens::Sort;

// Does the table have a value of name i at an element?
fn is_given(table: &[Row], given: usize, i: usize, e: Element) -> bool
    ensures { IsGiven table.now given i (list_of e) result }
{
    store::find(table, given, store::key_of(i, e)).is_some()
}

// A value at each element of the domain that was declared for name i, an integer or a real.
fn domain_given(stored: Stored<'_>, i: usize) -> Result<(), Refused>
    ensures { Over DomainGiven stored.entry i result }
{
    let place = names::word_of(stored.names, i, 0);
    let count = names::word_of(stored.names, i, 3) as usize;
    let at = names::word_of(stored.names, i, 4) as usize;
    let cx = Context {
        stored,
        level: i,
        nest: 0,
        scope: Scope::none(),
    };
    for here in Walk::new(cx, count, at) {
        let h = here?;
        if !is_given(stored.table, stored.given, i, h.element()) {
            return refused!(Missing, place);
        }
    }
    Ok(())
}

// The data of name i; other sorts have none.
fn name_given(stored: Stored<'_>, i: usize) -> Result<(), Refused>
    ensures { Over NameGiven stored.entry i result }
{
    let sort = names::word_of(stored.names, i, 2);
    if (sort == Sort::Integer as u64) | (sort == Sort::Real as u64) {
        return domain_given(stored, i);
    }
    Ok(())
}

// The data of all names, by declaration.
pub fn all_given(stored: Stored<'_>) -> Result<(), Refused>
    ensures { Over AllGiven stored.entry result }
{
    for i in 0..stored.names.len() / 5 {
        name_given(stored, i)?;
    }
    Ok(())
}
