// The problem of a model, generated from the model's tables into tables of its own: all data given, the variables numbered, the
// objective, and each constraint at each element.
#![tactic(auto)]

mod missing;
pub mod variables;

ghost use Rattle.problem.specs.Problem.{ShapesAs, GeneratesAs};
ghost use Rattle.evaluator.specs.Context.{Over};

use constraints::Record;
use evaluator::Stored;
use rows::{Bound, Filled};
use rules::Refused;
use store::Row;

// How many variables are discrete, how many there are, and how many rows.
#[derive(Clone, Copy)]
pub struct Problem {
    pub discrete: usize,
    pub total: usize,
    pub filled: Filled,
}

// The objective and the constraints of `total` variables, the first of which are discrete.
fn shape(
    stored: Stored<'_>,
    variables: &[Row],
    discrete: usize,
    total: usize,
    aim: usize,
    minimize: bool,
    constraints: &[Record; 64],
    count: usize,
    slots: &mut [Row; 1026],
    bounds: &mut [Bound; 512],
    counts: &mut [i64; 263168],
) -> Result<Problem, Refused>
    ensures { Over ShapesAs stored.entry variables.now discrete total aim minimize constraints.now count bounds.old result slots.new bounds.new counts.new }
{
    matrix::objective(stored, variables, total, aim, minimize, counts)?;
    let filled = matrix::constraints(
        stored,
        variables,
        total,
        constraints,
        count,
        slots,
        bounds,
        counts,
    )?;
    Ok(Problem {
        discrete,
        total,
        filled,
    })
}

// Missing data, variables, the objective, constraints. The form of the objective stands at `aim`, and the first `count` rows of the
// table tell of the constraints.
pub fn generate(
    stored: Stored<'_>,
    aim: usize,
    minimize: bool,
    constraints: &[Record; 64],
    count: usize,
    variables: &mut [Row; 512],
    slots: &mut [Row; 1026],
    bounds: &mut [Bound; 512],
    counts: &mut [i64; 263168],
) -> Result<Problem, Refused>
    ensures { Over GeneratesAs stored.entry aim minimize constraints.now count bounds.old result variables.new slots.new bounds.new counts.new }
{
    missing::all_given(stored)?;
    let (discrete, total) = variables::number(stored, variables)?;
    shape(
        stored,
        variables,
        discrete,
        total,
        aim,
        minimize,
        constraints,
        count,
        slots,
        bounds,
        counts,
    )
}
