// The objective and every constraint of a model, element by element: bounds in their table, rows in their slots. `table` and `given`:
// the data and their rows; `variables` and `total`: the variables and how many there are. What the tables hold is said in the
// crate `rows`.
#![tactic(auto)]

mod parts;
mod sides;

ghost use Rattle.std.specs.Prelude.{◌≡◌, ◌≤◌, length};
ghost use Rattle.store.specs.Element.{list_of};
ghost use Rattle.matrix.specs.Answers.{RowAdds, RowsAdd, BoundAdds, BoundsAdd, OneAdds, AllAdd, Generates, ObjectiveIs};
ghost use Rattle.evaluator.specs.Context.{Over};

use constraints::Record;
use elements::walk::Walk;
use evaluator::steps::scope::Scope;
use evaluator::{Context, Stored};
use parts::Parts;
use rows::{Bound, Filled};
use rules::{Refused, refused};
use store::{Element, Row};

// ---- rows

// The row of constraint number k at the element e, where `scope` is bound.
fn row(
    stored: Stored<'_>,
    variables: &[Row],
    total: usize,
    k: usize,
    parts: Parts,
    scope: Scope,
    e: Element,
    filled: Filled,
    slots: &mut [Row],
    counts: &mut [i64],
) -> Result<Filled, Refused>
    requires { (total ≤ 512) × (1026 ≤ length slots.old) × (263168 ≤ length counts.old) }
    ensures { Over RowAdds stored.entry variables.now total k parts scope (list_of e) filled slots.old counts.old result slots.new counts.new }
{
    let equal = parts.equal;
    let slot = rows::next_slot(filled, equal);
    let a = slot * rules::VARIABLE_LIMIT;
    let b = a + total;
    let cx = Context {
        stored,
        level: rules::NAME_LIMIT,
        nest: rules::NESTING_LIMIT,
        scope,
    };
    let (v, w) = sides::row_at(
        variables,
        total,
        &cx,
        parts.left,
        parts.right,
        parts.floor,
        parts.flips,
        &mut counts[a..b],
    )?;
    if !rows::has_room(filled) {
        return refused!(Full, parts.place);
    }
    Ok(rows::write(slots, filled, equal, k, e, v, w))
}

// The rows of constraint number k.
fn rows_of(
    stored: Stored<'_>,
    variables: &[Row],
    total: usize,
    k: usize,
    parts: Parts,
    filled: Filled,
    slots: &mut [Row],
    counts: &mut [i64],
) -> Result<Filled, Refused>
    requires { (total ≤ 512) × (1026 ≤ length slots.old) × (263168 ≤ length counts.old) }
    ensures { Over RowsAdd stored.entry variables.now total k parts filled slots.old counts.old result slots.new counts.new }
{
    let cx = Context {
        stored,
        level: rules::NAME_LIMIT,
        nest: rules::NESTING_LIMIT,
        scope: Scope::none(),
    };
    let mut f = filled;
    for here in Walk::new(cx, parts.count, parts.at) {
        let h = here?;
        f = row(
            stored,
            variables,
            total,
            k,
            parts,
            h.scope(),
            h.element(),
            f,
            slots,
            counts,
        )?;
    }
    Ok(f)
}

// ---- bounds

// The bound of a constraint where `scope` is bound.
fn bound(
    stored: Stored<'_>,
    variables: &[Row],
    total: usize,
    parts: Parts,
    scope: Scope,
    bounds: &mut [Bound],
) -> Result<(), Refused>
    requires { (total ≤ 512) × (512 ≤ length bounds.old) }
    ensures { Over BoundAdds stored.entry variables.now total parts scope bounds.old result bounds.new }
{
    let cx = Context {
        stored,
        level: rules::NAME_LIMIT,
        nest: rules::NESTING_LIMIT,
        scope,
    };
    let stated = sides::bound_at(variables, total, &cx, parts.left, parts.right, parts.floor)?;
    rows::state(
        bounds,
        stated.variable,
        parts.lower,
        parts.upper,
        stated.right,
    );
    rows::state_floor(bounds, stated.variable, stated.floor);
    Ok(())
}

// The bounds of a constraint.
fn bounds_of(
    stored: Stored<'_>,
    variables: &[Row],
    total: usize,
    parts: Parts,
    bounds: &mut [Bound],
) -> Result<(), Refused>
    requires { (total ≤ 512) × (512 ≤ length bounds.old) }
    ensures { Over BoundsAdd stored.entry variables.now total parts bounds.old result bounds.new }
{
    let cx = Context {
        stored,
        level: rules::NAME_LIMIT,
        nest: rules::NESTING_LIMIT,
        scope: Scope::none(),
    };
    for here in Walk::new(cx, parts.count, parts.at) {
        let h = here?;
        bound(stored, variables, total, parts, h.scope(), bounds)?;
    }
    Ok(())
}

// ---- constraints

// Constraint number k: bounds where its left side is one variable, else rows.
fn one(
    stored: Stored<'_>,
    variables: &[Row],
    total: usize,
    constraints: &[Record],
    k: usize,
    filled: Filled,
    slots: &mut [Row],
    bounds: &mut [Bound],
    counts: &mut [i64],
) -> Result<Filled, Refused>
    requires { (total ≤ 512) × (1026 ≤ length slots.old) × (512 ≤ length bounds.old) × (263168 ≤ length counts.old) }
    ensures { Over OneAdds stored.entry variables.now total constraints.now k filled slots.old bounds.old counts.old result slots.new bounds.new counts.new }
{
    let parts = parts::read(stored.tokens, constraints, k);
    if parts.bare {
        bounds_of(stored, variables, total, parts, bounds)?;
        return Ok(filled);
    }
    rows_of(stored, variables, total, k, parts, filled, slots, counts)
}

// The constraints of the first `count` rows.
fn all(
    stored: Stored<'_>,
    variables: &[Row],
    total: usize,
    constraints: &[Record],
    count: usize,
    slots: &mut [Row],
    bounds: &mut [Bound],
    counts: &mut [i64],
) -> Result<Filled, Refused>
    requires { (total ≤ 512) × (1026 ≤ length slots.old) × (512 ≤ length bounds.old) × (263168 ≤ length counts.old) × (64 ≤ length constraints.now) }
    ensures { Over AllAdd stored.entry variables.now total constraints.now count bounds.old counts.old result slots.new bounds.new counts.new }
{
    let mut f = Filled { less: 0, equal: 0 };
    for k in 0..count {
        f = one(
            stored,
            variables,
            total,
            constraints,
            k,
            f,
            slots,
            bounds,
            counts,
        )?;
    }
    Ok(f)
}

// All constraints, in the first `count` rows of their table: the slots of their rows, their bounds, and the rows of counts.
pub fn constraints(
    stored: Stored<'_>,
    variables: &[Row],
    total: usize,
    constraints: &[Record; 64],
    count: usize,
    slots: &mut [Row; 1026],
    bounds: &mut [Bound; 512],
    counts: &mut [i64; 263168],
) -> Result<Filled, Refused>
    ensures { Over Generates stored.entry variables.now total constraints.now count bounds.old counts.old result slots.new bounds.new counts.new }
{
    if rules::VARIABLE_LIMIT < total {
        return refused!(Full, 0);
    }
    all(
        stored,
        variables,
        total,
        constraints,
        count,
        slots,
        bounds,
        counts,
    )
}

// ---- the objective

// The objective's row of counts, behind the slots.
fn objective_row(
    stored: Stored<'_>,
    variables: &[Row],
    total: usize,
    at: usize,
    minimize: bool,
    slot: usize,
    counts: &mut [i64],
) -> Result<(), Refused>
    requires { (total ≤ 512) × (slot ≡ 512) × (263168 ≤ length counts.old) }
    ensures { Over (ObjectiveIs minimize) stored.entry variables.now total at result counts.new }
{
    let cx = Context {
        stored,
        level: rules::NAME_LIMIT,
        nest: rules::NESTING_LIMIT,
        scope: Scope::none(),
    };
    let a = slot * rules::VARIABLE_LIMIT;
    let b = a + total;
    sides::objective_at(variables, total, &cx, at, minimize, &mut counts[a..b])
}

// The objective, whose form stands at a position, in its row of counts; negated for a minimum.
pub fn objective(
    stored: Stored<'_>,
    variables: &[Row],
    total: usize,
    at: usize,
    minimize: bool,
    counts: &mut [i64; 263168],
) -> Result<(), Refused>
    ensures { Over (ObjectiveIs minimize) stored.entry variables.now total at result counts.new }
{
    if rules::VARIABLE_LIMIT < total {
        return refused!(Full, 0);
    }
    objective_row(
        stored,
        variables,
        total,
        at,
        minimize,
        rules::ROW_LIMIT,
        counts,
    )
}
