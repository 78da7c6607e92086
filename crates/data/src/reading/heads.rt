// A portion's head: `[` entries `]` and an optional order.
ghost use Rattle.std.specs.Prelude.{◌≡◌};
ghost use Rattle.language.specs.Data.{signed_entry, read_entry};
ghost use Rattle.data.specs.Reading.Entries.{entries_of};
ghost use Rattle.data.specs.Reading.Readers.{Answers, Says, indexed, entered, index_in};
ghost use Rattle.data.specs.Reading.Lists.{item_in, separator_of, planned, bracketed_in, optional_in, order_in, rest_in, head_in, Lists, Ordered, Orders, Heads};
ghost use Rattle.tokens.specs.Text.{In};

use super::entries::{Entries, Entry};
use super::few::Few;
use super::numbers::signed;
use lexer::Mark;
use rules::{Refused, refused};
use tokens::{Kind, Sort, Text};

// The positions that run, outermost first; the entries; the position behind the head.
#[derive(Clone, Copy)]
pub struct Plan {
    pub runs: Few,
    pub entries: Entries,
    pub next: usize,
}

// A declared index.
fn index(text: Text<'_>, at: usize) -> Result<(usize, usize), Refused>
    ensures { In (Answers indexed index_in) text.entry at result }
{
    let name = tokens::known_name(text, at)?;
    if name.sort != Sort::Index as u64 {
        return refused!(Misplaced, name.place);
    }
    Ok((name.number, name.next))
}

// The digits behind an entry's sign. `minus` is the sign that was read: data, not a step.
fn signed_entry(tokens: &[u64], at: usize, minus: bool) -> Result<(Entry, usize), Refused>
    ensures { Says entered (signed_entry minus) tokens.now at result }
{
    let token = tokens::token_at(tokens, at)?;
    if token.kind != Kind::Whole as u64 {
        return refused!(Misplaced, token.place);
    }
    Ok((Entry::Fixed(signed(token.payload, minus)), token.next))
}

// A fixed whole number, or an index name.
fn entry(text: Text<'_>, at: usize) -> Result<(Entry, usize), Refused>
    ensures { In (Answers entered read_entry) text.entry at result }
{
    let token = tokens::token_at(text.tokens, at)?;
    if token.kind == Kind::Name as u64 {
        let (i, next) = index(text, at)?;
        return Ok((Entry::Marked(i), next));
    }
    if token.kind == Kind::Whole as u64 {
        return Ok((Entry::Fixed(signed(token.payload, false)), token.next));
    }
    if token.kind == Mark::Plus as u64 {
        return signed_entry(text.tokens, token.next, false);
    }
    if token.kind == Mark::Minus as u64 {
        return signed_entry(text.tokens, token.next, true);
    }
    refused!(Misplaced, token.place)
}

// An entry and the sign with the number `c` behind it.
fn item(text: Text<'_>, at: usize, c: u8) -> Result<(Entry, usize), Refused>
    ensures { In (Answers entered (item_in c)) text.entry at result }
{
    let (first, sign) = entry(text, at)?;
    let next = tokens::expect(text, sign, c)?;
    Ok((first, next))
}

// The sign behind an entry with which `left` are due.
fn separator(left: usize) -> u8
    ensures { result ≡ separator_of left }
{
    if left == 1 {
        Mark::RightBracket as u8
    } else {
        Mark::Comma as u8
    }
}

// As many entries as the domain has indices, and the `]`.
fn list(text: Text<'_>, at: usize, count: usize) -> Result<(Entries, usize), Refused>
    ensures { In Lists text.entry at count result }
{
    let mut list = Entries::none();
    let mut a = at;
    for left in (0..count).rev() {
        let (e, next) = item(text, a, separator(left + 1))?;
        list = list.with(e);
        a = next;
    }
    Ok((list, a))
}

// The indices of an order, and its `)`.
fn order_list(text: Text<'_>, at: usize) -> Result<(Few, usize), Refused>
    ensures { In Ordered text.entry at result }
{
    let mut list = Few::none();
    let mut a = at;
    for _ in 0..rules::BYTE_LIMIT {
        let (i, behind) = index(text, a)?;
        list = list.with(i);
        let token = tokens::token_at(text.tokens, behind)?;
        if token.kind == Mark::RightParen as u64 {
            return Ok((list, token.next));
        }
        if token.kind != Mark::Comma as u64 {
            return refused!(Misplaced, token.place);
        }
        a = token.next;
    }
    refused!(Full, 0)
}

// An order behind its `(`: a rearrangement of the marks.
fn bracketed_order(
    text: Text<'_>,
    at: usize,
    place: u64,
    marks: Few,
) -> Result<(Few, usize), Refused>
    ensures { In (Orders (bracketed_in place)) text.entry at marks result }
{
    let (order, next) = order_list(text, at)?;
    if !order.rearranges(marks) {
        return refused!(BadIndex, place);
    }
    Ok((order, next))
}

// An order where a `(` stands; without it, the marks left to right.
fn optional_order(
    text: Text<'_>,
    at: usize,
    place: u64,
    marks: Few,
) -> Result<(Few, usize), Refused>
    ensures { In (Orders (optional_in place)) text.entry at marks result }
{
    let token = tokens::token_at(text.tokens, at)?;
    if token.kind == Mark::LeftParen as u64 {
        return bracketed_order(text, token.next, place, marks);
    }
    Ok((marks, at))
}

// The marks tested, then the order.
fn ordered_head(text: Text<'_>, at: usize, place: u64, entries: Entries) -> Result<Plan, Refused>
    ensures { In (Answers planned (order_in place (entries_of entries))) text.entry at result }
{
    let marks = entries.marks();
    if !marks.no_repeats() {
        return refused!(BadIndex, place);
    }
    let (order, next) = optional_order(text, at, place, marks)?;
    Ok(Plan {
        runs: entries.positions(order),
        entries,
        next,
    })
}

// The entries, then the order.
fn entries_head(text: Text<'_>, at: usize, place: u64, count: usize) -> Result<Plan, Refused>
    ensures { In (Heads (rest_in place count)) text.entry at count result }
{
    let (entries, next) = list(text, at, count)?;
    ordered_head(text, next, place, entries)
}

// The head of a portion whose name stands at `place` and has `count` indices.
pub fn head(text: Text<'_>, at: usize, place: u64, count: usize) -> Result<Plan, Refused>
    ensures { In (Heads (head_in place count)) text.entry at count result }
{
    let open = tokens::bracket(text, at, rules::NESTING_LIMIT, Mark::LeftBracket as u8)?;
    entries_head(text, open, place, count)
}
