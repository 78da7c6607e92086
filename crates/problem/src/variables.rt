// The variables of a model, numbered: discrete ones first, then continuous; in each, by declaration, element by element. Row j of the
// table has the key of variable number j.
ghost use Rattle.std.specs.Prelude.{◌≤◌, length};
ghost use Rattle.tokens.specs.Stored.{sort_number};
ghost use Rattle.problem.specs.Variables.Numbers.{AddsName, AddsSort, NumbersAs};
ghost use Rattle.evaluator.specs.Context.{Over};

use elements::walk::Walk;
use evaluator::steps::names;
use evaluator::steps::scope::Scope;
use evaluator::{Context, Stored};
use rules::{Refused, refused};
use store::Row;
use tokens::Sort;

// The elements of name i, behind the first `from` rows. The 513th variable is refused at the declared name.
fn add_name(
    stored: Stored<'_>,
    i: usize,
    from: usize,
    variables: &mut [Row],
) -> Result<usize, Refused>
    requires { 512 ≤ length variables.old }
    ensures { Over AddsName stored.entry i from variables.old result variables.new }
{
    let cx = Context {
        stored,
        level: i,
        nest: rules::NESTING_LIMIT,
        scope: Scope::none(),
    };
    let count = names::word_of(stored.names, i, 3) as usize;
    let at = names::word_of(stored.names, i, 4) as usize;
    let mut n = from;
    for here in Walk::new(cx, count, at) {
        let h = here?;
        let e = h.element();
        if rules::VARIABLE_LIMIT <= n {
            return refused!(Full, names::word_of(stored.names, i, 0));
        }
        let key = store::key_of(i, e);
        store::append(variables, n, key, 0);
        n += 1;
    }
    Ok(n)
}

// The names of a sort, behind the first `from` rows.
fn add_sort(
    stored: Stored<'_>,
    sort: Sort,
    from: usize,
    variables: &mut [Row],
) -> Result<usize, Refused>
    requires { 512 ≤ length variables.old }
    ensures { Over AddsSort stored.entry (sort_number sort) from variables.old result variables.new }
{
    let mut n = from;
    for i in 0..stored.names.len() / 5 {
        if names::word_of(stored.names, i, 2) != sort.number() {
            continue;
        }
        n = add_name(stored, i, n, variables)?;
    }
    Ok(n)
}

// Numbers all variables.
pub fn number(stored: Stored<'_>, variables: &mut [Row; 512]) -> Result<(usize, usize), Refused>
    ensures { Over NumbersAs stored.entry result variables.new }
{
    let discrete = add_sort(stored, Sort::Discrete, 0, variables)?;
    let total = add_sort(stored, Sort::Continuous, discrete, variables)?;
    Ok((discrete, total))
}
