// The public entry points: a text and a lent output buffer give a number, a place and a length.
#![tactic(auto)]

ghost use Rattle.std.specs.Prelude.{◌≡◌, ◌≤◌, List, ℕ, length, take, replicate};
ghost use Rattle.rules.specs.Refusals.{refusal_number};
ghost use Rattle.language.specs.Answer.{Accepted, listing_of, printing};
ghost use Rattle.mps.specs.Problem.{export_of};
ghost use Rattle.tokens.specs.Stored.{rows_of};
ghost use Rattle.tokens.specs.Text.{In};
ghost use Rattle.generator.specs.Contract.{Gives, Defined, Accepts, Meaning, Exports, Carries, ReadsBack, Calls};
ghost use Rattle.generator.specs.Generated.{behind_brace, Writes, Printer, PrintsModel, PrintsIn, Generates, Rewrites, Answers};

use constraints::Record;
use evaluator::Stored;
use model::Model;
use rows::{Bound, Sizes};
use rules::{Refused, refused};
use store::Row;
use tokens::Text;

// Number 0, place 0 and the report's length; or a refusal's number and place, and length 0.
#[repr(C)]
#[derive(Clone, Copy)]
pub struct Answer {
    pub number: u32,
    pub place: usize,
    pub length: usize,
}

// The entry points by name, for programs that choose one while they run.
#[derive(Clone, Copy)]
pub enum Entry {
    List,
    Export,
    Read,
}

// The tables of a model and of its problem, from which a report is written: the rows of its constraints, the position of its string,
// and the place and the number of bytes of its data's string.
#[derive(Clone, Copy)]
struct Posed<'a> {
    text: Text<'a>,
    constraints: &'a [Record],
    variables: &'a [Row],
    slots: &'a [Row],
    bounds: &'a [Bound],
    counts: &'a [i64],
    sizes: Sizes,
    title: usize,
    place: u64,
    bytes: u64,
}

// The byte behind the opening brace of a string; 0 past the end of every text.
fn behind_brace(p: u64) -> u64
    ensures { result ≡ behind_brace p }
{
    if p < rules::BYTE_LIMIT as u64 {
        return p + 1;
    }
    0
}

// The listing, from tables.
fn write_listing(t: Posed<'_>, out: &mut [u8]) -> usize
    ensures { Writes listing_of t.entry out.old result out.new }
{
    listing::sheet::write(
        t.text,
        t.constraints,
        t.variables,
        t.slots,
        t.bounds,
        t.counts,
        t.sizes,
        t.title,
        t.place,
        t.bytes,
        out,
    )
}

// The export, from tables.
fn write_export(t: Posed<'_>, out: &mut [u8]) -> usize
    ensures { Writes export_of t.entry out.old result out.new }
{
    exporter::write(t.slots, t.bounds, t.counts, t.sizes, out)
}

// The report of a model that was read into tables, as `print` writes it, with tables for its problem: no bound is stated in them.
// The text has the rows of its names and its tokens, and no others.
fn list_in<P: FnOnce(Posed<'_>, &mut [u8]) -> usize>(
    text: Text<'_>,
    constraints: &[Record; 64],
    store: &[Row],
    model: Model,
    variables: &mut [Row; 512],
    slots: &mut [Row; 1026],
    bounds: &mut [Bound; 512],
    counts: &mut [i64; 263168],
    print: P,
    out: &mut [u8],
) -> Result<usize, Refused>
    requires called { P.IsAlwaysCallable print }
    requires few { model.constraints ≤ 64 }
    ensures { (f : Accepted → List ℕ) → Printer f (P.post print) → In (PrintsIn f) text.entry constraints.now store.now model bounds.old out.old result out.new }
{
    let stored = Stored {
        names: text.names,
        tokens: text.tokens,
        table: store,
        given: model.given,
    };
    let problem = problem::generate(
        stored,
        model.objective as usize,
        model.minimize,
        constraints,
        model.constraints,
        variables,
        slots,
        bounds,
        counts,
    )?;
    let sizes = Sizes {
        discrete: problem.discrete,
        variables: problem.total,
        less: problem.filled.less,
        equal: problem.filled.equal,
    };
    let posed = Posed {
        text,
        constraints: &constraints[..model.constraints],
        variables,
        slots,
        bounds,
        counts,
        sizes,
        title: model.title as usize,
        place: behind_brace(model.section),
        bytes: model.bytes,
    };
    Ok(print(posed, out))
}

// The report of a model that was read into tables. It is not inlined: its tables lie on the stack while it runs, and not in the frame
// of a program that may as well read an export, which needs none of them.
#[inline(never)]
fn list<P: FnOnce(Posed<'_>, &mut [u8]) -> usize>(
    text: Text<'_>,
    constraints: &[Record; 64],
    store: &[Row],
    model: Model,
    print: P,
    out: &mut [u8],
) -> Result<usize, Refused>
    requires called { P.IsAlwaysCallable print }
    requires few { model.constraints ≤ 64 }
    ensures { (f : Accepted → List ℕ) → Printer f (P.post print) → In (PrintsModel f) text.entry constraints.now store.now model out.old result out.new }
{
    let mut variables = [Row::none(); 512];
    let mut slots = [Row::none(); 1026];
    let mut bounds = [Bound::unstated(); 512];
    let mut counts = [0i64; 263168];
    list_in(
        text,
        constraints,
        store,
        model,
        &mut variables,
        &mut slots,
        &mut bounds,
        &mut counts,
        print,
        out,
    )
}

// The same, of all rows and tokens of the tables.
fn part<P: FnOnce(Posed<'_>, &mut [u8]) -> usize>(
    text: Text<'_>,
    constraints: &[Record; 64],
    store: &[Row; 2048],
    model: Model,
    print: P,
    out: &mut [u8],
) -> Result<usize, Refused>
    requires called { P.IsAlwaysCallable print }
    requires stored { (model.tokens ≤ length text.tokens.now) × (model.names ≤ 64) × (320 ≤ length text.names.now) × (model.constraints ≤ 64) }
    ensures { (f : Accepted → List ℕ) → Printer f (P.post print) → PrintsModel f text.entry.bytes.now (rows_of model.names text.entry.names.now) (take model.tokens text.entry.tokens.now) constraints.now store.now model out.old result out.new }
{
    let k = model.names * 5;
    let n = model.tokens;
    let filled = Text {
        bytes: text.bytes,
        names: &text.names[..k],
        tokens: &text.tokens[..n],
    };
    list(filled, constraints, store, model, print, out)
}

// The report of a text, as far as the output reaches, with tables to read it into.
fn generate_in<P: FnOnce(Posed<'_>, &mut [u8]) -> usize>(
    text: &[u8],
    tokens: &mut [u64; 16385],
    names: &mut [u64; 320],
    constraints: &mut [Record; 64],
    store: &mut [Row; 2048],
    print: P,
    out: &mut [u8],
) -> Result<usize, Refused>
    requires { P.IsAlwaysCallable print }
    ensures { (f : Accepted → List ℕ) → Printer f (P.post print) → Generates f text.now out.old result out.new }
{
    let model = model::read(text, tokens, names, constraints, store)?;
    let read = Text {
        bytes: text,
        names,
        tokens,
    };
    part(read, constraints, store, model, print, out)
}

// The report of a text, as far as the output reaches. It is not inlined, as `list`.
#[inline(never)]
fn generate<P: FnOnce(Posed<'_>, &mut [u8]) -> usize>(
    text: &[u8],
    print: P,
    out: &mut [u8],
) -> Result<usize, Refused>
    requires { P.IsAlwaysCallable print }
    ensures { (f : Accepted → List ℕ) → Printer f (P.post print) → Generates f text.now out.old result out.new }
{
    let mut tokens = [0u64; 16385];
    let mut names = [0u64; 320];
    let mut constraints = [Record::none(); 64];
    let mut store = [Row::none(); 2048];
    generate_in(
        text,
        &mut tokens,
        &mut names,
        &mut constraints,
        &mut store,
        print,
        out,
    )
}

// What an export says, as far as the output reaches; what is no export is refused.
fn reread(text: &[u8], out: &mut [u8]) -> Result<usize, Refused>
    ensures { Rewrites text.now out.old result out.new }
{
    let Some(length) = importer::read(text, out) else {
        return refused!(Misplaced, 0);
    };
    Ok(length)
}

// A refusal: every output byte is zero.
fn refuse(out: &mut [u8], r: rules::Refusal, p: usize) -> Answer
    ensures value { result ≡ record { number = refusal_number r; place = p; length = 0 } }
    ensures out_after { out.new ≡ replicate (length out.old) 0 }
{
    listing::clear(out);
    Answer {
        number: u32::from(r),
        place: p,
        length: 0,
    }
}

// The answer, of what was generated in an output of zeros.
fn give(out: &mut [u8], generated: Result<usize, Refused>) -> Answer
    ensures { Answers out.old generated result out.new }
{
    match generated {
        Ok(n) => {
            if out.len() < n {
                return refuse(out, rules::Refusal::LongListing, n);
            }
            Answer {
                number: 0,
                place: 0,
                length: n,
            }
        }
        Err(e) => refuse(out, e.refusal, e.place as usize),
    }
}

// A report of a text, as `print` writes it, or one refusal with its place and every output byte zero.
fn answer_with<P: FnOnce(Posed<'_>, &mut [u8]) -> usize>(
    text: &[u8],
    print: P,
    out: &mut [u8],
) -> Answer
    requires { P.IsAlwaysCallable print }
    ensures { (f : Accepted → List ℕ) → Printer f (P.post print) → Gives (length out.old) (printing f text.now (length out.old)) result out.new }
{
    listing::clear(out);
    let generated = generate(text, print, out);
    give(out, generated)
}

// ---- entry points. The text is as it was: it is not lent for writing

// The listing of a text.
pub fn recipe_generate(text: &[u8], out: &mut [u8]) -> Answer
    ensures defined { Defined text.now out.old result out.new }
    ensures accepts { Accepts text.now out.old result }
    ensures meaning { Meaning text.now out.old result out.new }
{
    answer_with(text, write_listing, out)
}

// The export of a model for a solver.
pub fn recipe_export(text: &[u8], out: &mut [u8]) -> Answer
    ensures defined { Exports text.now out.old result out.new }
    ensures meaning { Carries text.now out.old result out.new }
{
    answer_with(text, write_export, out)
}

// What an export says: the `row`, `var` and `col` lines of its listing, without strings, names and index values.
pub fn recipe_read_export(text: &[u8], out: &mut [u8]) -> Answer
    ensures defined { ReadsBack text.now out.old result out.new }
{
    listing::clear(out);
    let generated = reread(text, out);
    give(out, generated)
}

// The entry point of a name.
pub fn call(entry: Entry, text: &[u8], out: &mut [u8]) -> Answer
    ensures { Calls entry text.now out.old result out.new }
{
    match entry {
        Entry::List => recipe_generate(text, out),
        Entry::Export => recipe_export(text, out),
        Entry::Read => recipe_read_export(text, out),
    }
}
