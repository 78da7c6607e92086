// Declarations read over the stored tokens; each declared name becomes a row of the name table.
#![tactic(auto)]

ghost use Rattle.std.specs.Prelude.{Ok, Err, MatchResult, ◌≤◌, length};
ghost use Rattle.rules.specs.Limits.{token_limit};
ghost use Rattle.tokens.specs.Stored.{Moves, Gives, sort_number};
ghost use Rattle.tokens.specs.Pieces.{index_in};
ghost use Rattle.tokens.specs.Text.{In};
ghost use Rattle.domains.specs.Domains.{entry_with};
ghost use Rattle.declarations.specs.Readers.{due_with, due_in, joint_in, subscripted_in, domain_in, entry_in, separator_in, entries_in, list_in, lists_in};
ghost use Rattle.declarations.specs.Tables.{IsNumber, IsMore, Indexed, Spanning, Entered, TitledAt, RowedAt, Lists, Declared};

use lexer::Mark;
use rules::{Refused, refused};
use tokens::{Kind, Sort, Text};

// The numbers of a list's indices, the first `count` of these.
#[derive(Clone, Copy)]
struct Indices {
    numbers: [usize; 4],
    count: usize,
}

// What stands behind a declared name: the number of its indices, and the position of its formula or of its domain's first entry.
#[derive(Clone, Copy)]
struct Entry {
    count: u64,
    position: u64,
}

// A new name's place and number of bytes.
#[derive(Clone, Copy)]
struct Title {
    place: u64,
    bytes: u64,
}

// A declared name's row but for its sort, and whether its list goes on.
#[derive(Clone, Copy)]
struct Row {
    place: u64,
    bytes: u64,
    count: u64,
    position: u64,
    more: bool,
}

// The index `i` that is due in a declared domain, and was not named in it before.
fn due_index(text: Text<'_>, at: usize, i: usize, taken: bool) -> Result<usize, Refused>
    ensures { In (Moves (due_with i taken)) text.entry at result }
{
    let name = tokens::known_name(text, at)?;
    if (name.number == i) & !taken {
        return Ok(name.next);
    }
    refused!(Misplaced, name.place)
}

// Lower formula `<=` due index `<=` upper formula.
fn due_entry(text: Text<'_>, at: usize, i: usize, taken: bool) -> Result<usize, Refused>
    ensures { In (Moves (entry_with (due_with i taken))) text.entry at result }
{
    let nest = rules::NESTING_LIMIT;
    let lower = formulas::part(text, at, nest, Mark::AtMost as u8)?;
    let index = due_index(text, lower, i, taken)?;
    let sign = tokens::expect(text, index, Mark::AtMost as u8)?;
    formulas::inside(text, sign, nest)
}

// A declared domain behind its `(`: the indices of the list, in their order, none twice.
fn due(text: Text<'_>, at: usize, list: &[usize]) -> Result<usize, Refused>
    ensures { In (Moves (due_in list.now)) text.entry at result }
{
    let mut start = at;
    for k in 0..list.len() {
        let i = list[k];
        let taken = list[..k].contains(&i);
        let end = due_entry(text, start, i, taken)?;
        if k + 1 == list.len() {
            return tokens::expect(text, end, Mark::RightParen as u8);
        }
        start = tokens::expect(text, end, Mark::Comma as u8)?;
    }
    Ok(start)
}

// A declared index: its number, and the position after it.
fn index_number(text: Text<'_>, at: usize) -> Result<(usize, usize), Refused>
    ensures { MatchResult result
        (λ w. In (Gives index_in (IsNumber w.0)) text.entry at (Ok w.1))
        (λ e. In (Moves index_in) text.entry at (Err e)) }
{
    let name = tokens::known_name(text, at)?;
    if name.sort != Sort::Index as u64 {
        return refused!(Misplaced, name.place);
    }
    Ok((name.number, name.next))
}

// A comma, where an index more is allowed, or `]`: whether the list goes on, and the position after the sign.
fn index_joint(text: Text<'_>, at: usize, left: usize) -> Result<(bool, usize), Refused>
    ensures { MatchResult result
        (λ w. In (Gives (joint_in left) (IsMore w.0)) text.entry at (Ok w.1))
        (λ e. In (Moves (joint_in left)) text.entry at (Err e)) }
{
    let token = tokens::token_at(text.tokens, at)?;
    if (0 < left) & (token.kind == Mark::Comma as u64) {
        return Ok((true, token.next));
    }
    let next = tokens::expect(text, at, Mark::RightBracket as u8)?;
    Ok((false, next))
}

// One to four indices and `]`, and the position after it.
fn read_indices(text: Text<'_>, at: usize) -> Result<(Indices, usize), Refused>
    ensures { In Indexed text.entry at result }
{
    let mut numbers = [0usize; 4];
    let mut start = at;
    for n in 0..rules::INDEX_LIMIT {
        let (number, next) = index_number(text, start)?;
        numbers[n] = number;
        let count = n + 1;
        let (more, next) = index_joint(text, next, rules::INDEX_LIMIT - count)?;
        if !more {
            return Ok((Indices { numbers, count }, next));
        }
        start = next;
    }
    refused!(Full, 0)
}

// `[` indices `]` and their domain, and the position after it.
fn domain(text: Text<'_>, at: usize) -> Result<(Entry, usize), Refused>
    ensures { MatchResult result
        (λ w. In (Gives domain_in (Spanning text.entry.bytes.now text.entry.tokens.now w.0.count w.0.position)) text.entry at (Ok w.1))
        (λ e. In (Moves domain_in) text.entry at (Err e)) }
{
    let nest = rules::NESTING_LIMIT;
    let open = tokens::bracket(text, at, nest, Mark::LeftBracket as u8)?;
    let (list, next) = read_indices(text, open)?;
    let first = tokens::bracket(text, next, nest, Mark::LeftParen as u8)?;
    let end = due(text, first, &list.numbers[..list.count])?;
    let entry = Entry {
        count: list.count as u64,
        position: first as u64,
    };
    Ok((entry, end))
}

// An optional list of indices with its domain, and the position after it.
fn subscripted(text: Text<'_>, at: usize) -> Result<(Entry, usize), Refused>
    ensures { MatchResult result
        (λ w. In (Gives subscripted_in (Spanning text.entry.bytes.now text.entry.tokens.now w.0.count w.0.position)) text.entry at (Ok w.1))
        (λ e. In (Moves subscripted_in) text.entry at (Err e)) }
{
    let token = tokens::token_at(text.tokens, at)?;
    if token.kind == Mark::LeftBracket as u64 {
        return domain(text, at);
    }
    let none = Entry {
        count: 0,
        position: 0,
    };
    Ok((none, at))
}

// What stands behind a declared name of the given sort, and the position after it.
fn read_entry(text: Text<'_>, at: usize, sort: Sort) -> Result<(Entry, usize), Refused>
    ensures { MatchResult result
        (λ w. In (Gives (entry_in (sort_number sort)) (Entered text.entry.bytes.now text.entry.tokens.now (sort_number sort) w.0.count w.0.position)) text.entry at (Ok w.1))
        (λ e. In (Moves (entry_in (sort_number sort))) text.entry at (Err e)) }
{
    match sort {
        Sort::Index => {
            let none = Entry {
                count: 0,
                position: 0,
            };
            Ok((none, at))
        }
        Sort::Formula => {
            let first = tokens::expect(text, at, Mark::Equals as u8)?;
            let end = formulas::formula(text, first, rules::NESTING_LIMIT)?;
            let entry = Entry {
                count: 0,
                position: first as u64,
            };
            Ok((entry, end))
        }
        _ => subscripted(text, at),
    }
}

// A new name, and the position after it: 3 if there is none, 4 if it is declared again, 6 if it is the 65th.
fn new_name(text: Text<'_>, at: usize) -> Result<(Title, usize), Refused>
    ensures { In TitledAt text.entry at result }
{
    let token = tokens::token_at(text.tokens, at)?;
    let place = token.place;
    if token.kind != Kind::Name as u64 {
        return refused!(Misplaced, place);
    }
    let bytes = token.payload % tokens::NAME_UNIT;
    if let Some(known) = tokens::find(text.bytes, text.names, place, bytes) {
        return refused!(BadName, place);
    }
    if rules::NAME_LIMIT <= text.names.len() / 5 {
        return refused!(Full, place);
    }
    Ok((Title { place, bytes }, token.next))
}

// The `,` or `;` behind an entry of a list: whether the list goes on, and the position after the sign.
fn separator(text: Text<'_>, at: usize) -> Result<(bool, usize), Refused>
    ensures { MatchResult result
        (λ w. In (Gives separator_in (IsMore w.0)) text.entry at (Ok w.1))
        (λ e. In (Moves separator_in) text.entry at (Err e)) }
{
    let token = tokens::token_at(text.tokens, at)?;
    if token.kind == Mark::Comma as u64 {
        return Ok((true, token.next));
    }
    if token.kind == Mark::Semicolon as u64 {
        return Ok((false, token.next));
    }
    refused!(Misplaced, token.place)
}

// A name of the given sort, what stands behind it, and the sign that ends its entry.
fn read_row(text: Text<'_>, at: usize, sort: Sort) -> Result<(Row, usize), Refused>
    ensures { In RowedAt text.entry (sort_number sort) at result }
{
    let (title, next) = new_name(text, at)?;
    let (entry, next) = read_entry(text, next, sort)?;
    let (more, next) = separator(text, next)?;
    let row = Row {
        place: title.place,
        bytes: title.bytes,
        count: entry.count,
        position: entry.position,
        more,
    };
    Ok((row, next))
}

// The entries of a list of the given sort, each appended to the `count` rows of the name table: the number of names, and the position
// after the list.
fn entries(
    text: &[u8],
    tokens: &[u64],
    names: &mut [u64],
    at: usize,
    count: usize,
    sort: Sort,
) -> Result<(usize, usize), Refused>
    requires { (320 ≤ length names.old) × (count ≤ 64) }
    ensures { Lists (entries_in (sort_number sort) token_limit) text.now tokens.now names.old count at result names.new }
{
    let mut n = count;
    let mut start = at;
    for _ in 0..rules::TOKEN_LIMIT {
        let k = n * 5;
        let known = Text {
            bytes: text,
            names: &names[..k],
            tokens,
        };
        let (row, next) = read_row(known, start, sort)?;
        tokens::put_row(
            names,
            n,
            row.place,
            row.bytes,
            sort.number(),
            row.count,
            row.position,
        );
        n += 1;
        if !row.more {
            return Ok((n, next));
        }
        start = next;
    }
    refused!(Full, 0)
}

// The list of the given sort, if its word stands there.
fn list(
    text: &[u8],
    tokens: &[u64],
    names: &mut [u64],
    at: usize,
    count: usize,
    sort: Sort,
) -> Result<(usize, usize), Refused>
    requires { (320 ≤ length names.old) × (count ≤ 64) }
    ensures { Lists (list_in (sort_number sort)) text.now tokens.now names.old count at result names.new }
{
    let token = tokens::token_at(tokens, at)?;
    if token.kind != Mark::Index as u64 + sort.number() {
        return Ok((count, at));
    }
    entries(text, tokens, names, token.next, count, sort)
}

// The six lists.
fn lists(
    text: &[u8],
    tokens: &[u64],
    names: &mut [u64],
    at: usize,
) -> Result<(usize, usize), Refused>
    requires { 320 ≤ length names.old }
    ensures { Lists (lists_in 6 0) text.now tokens.now names.old 0 at result names.new }
{
    let mut n = 0;
    let mut start = at;
    for sort in [
        Sort::Index,
        Sort::Integer,
        Sort::Real,
        Sort::Formula,
        Sort::Discrete,
        Sort::Continuous,
    ] {
        let (count, next) = list(text, tokens, names, start, n, sort)?;
        n = count;
        start = next;
    }
    Ok((n, start))
}

// All declarations, into the rows of the name table: how many names there are, and the position after them.
pub fn declarations(
    text: &[u8],
    tokens: &[u64],
    names: &mut [u64; 320],
    at: usize,
) -> Result<(usize, usize), Refused>
    ensures { Declared text.now tokens.now at result names.new }
{
    lists(text, tokens, names, at)
}
