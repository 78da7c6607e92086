// A declared domain laid out: where each of its entries begins, and its index. So the limits of any position can be read by
// themselves.
ghost use Rattle.data.specs.Layouts.{Passes, LaysOut, Lays};
ghost use Rattle.tokens.specs.Text.{In};

use super::reading::few::Few;
use lexer::Mark;
use tokens::Text;

#[derive(Clone, Copy)]
pub struct Layout {
    pub starts: Few,
    pub indices: Few,
}

// Lower formula `<=` index `<=` upper formula, and the sign behind it, passed over with the names before the declared one.
fn pass_entry(text: Text<'_>, level: usize, at: usize) -> Option<(usize, usize)>
    ensures { In Passes text.entry level at result }
{
    let lower = formulas::part(text, at, rules::NESTING_LIMIT, Mark::AtMost as u8);
    let Ok(index) = lower else {
        return None;
    };
    let Ok(token) = tokens::token_at(text.tokens, index) else {
        return None;
    };
    let i = evaluator::steps::names::index_number(text.tokens, level, index);
    let sign = evaluator::steps::passing::skip(text.tokens, token.next);
    let upper = formulas::inside(text, sign, rules::NESTING_LIMIT);
    let Ok(end) = upper else {
        return None;
    };
    let next = evaluator::steps::passing::skip(text.tokens, end);
    Some((i, next))
}

fn no_layout() -> Layout {
    let starts = Few::none();
    let indices = Few::none();
    Layout { starts, indices }
}

// The entries of a domain of `count` indices, with the names before the declared one.
fn lay_out(text: Text<'_>, level: usize, at: usize, count: u64) -> Layout
    ensures { In LaysOut text.entry level at count result }
{
    let mut starts = Few::none();
    let mut indices = Few::none();
    let mut a = at;
    for _ in 0..count {
        let Some((i, next)) = pass_entry(text, level, a) else {
            return no_layout();
        };
        starts = starts.with(a);
        indices = indices.with(i);
        a = next;
    }
    Layout { starts, indices }
}

// The same with all names, of which the first `level` stand before the declared one.
pub fn layout_of(text: Text<'_>, level: usize, at: usize, count: u64) -> Layout
    ensures { In Lays text.entry level at count result }
{
    if text.names.len() / 5 < level {
        return no_layout();
    }
    let n = level * 5;
    let earlier = Text {
        names: &text.names[..n],
        ..text
    };
    lay_out(earlier, level, at, count)
}
