// Runs the stored cases through the entry points, and writes for each its answer: a line of number, place, length and the count
// of bytes behind the report that are not zero, parted by tabs; and then the report. tests/cases/make writes the input, in
// frames, and what must come out, from the stored cases.
#![tactic(auto)]

mod frames;

ghost use Rattle.std.specs.Prelude.{◌≡◌, ◌∷◌, ◌+◌, ◌<◌, ◌≤◌, ◌^◌, length};
ghost use Rattle.rules.specs.Characters.{tab};
ghost use Rattle.value.specs.Printed.{Written};
ghost use Rattle.listing.specs.Shown.{shown_natural};
ghost use Rattle.cases.specs.Told.{one_of, nonzero_of, told, Runs};

use generator::{Answer, Entry};
use std::io;
use std::io::{Print, Read};

// ---- a line, written as the lines of a listing are

// The output and a place in it travel side by side, as in crate `listing`.
fn put(t: &[u8], out: &mut [u8], at: usize) -> usize
    requires { at < 2 ^ 31 }
    ensures { Written out.old at t.now result out.new }
{
    let from = listing::rest_from(out.len(), at);
    at + listing::text(t, &mut out[from..])
}

fn digits(out: &mut [u8], at: usize, n: usize) -> usize
    requires { at < 2 ^ 30 }
    ensures { (Written out.old at (shown_natural n) result out.new) × (result ≤ at + 26) }
{
    if rules::MANTISSA_LIMIT < n as u64 {
        return at;
    }
    let from = listing::rest_from(out.len(), at);
    at + value::print(value::Value::from(n as i64), &mut out[from..])
}

fn field(out: &mut [u8], at: usize, n: usize) -> usize
    requires { at < 2 ^ 29 }
    ensures { (Written out.old at (tab ∷ shown_natural n) result out.new) × (result ≤ at + 27) }
{
    let next = put(b"\t", out, at);
    digits(out, next, n)
}

fn line(number: usize, place: usize, length: usize, behind: usize, out: &mut [u8]) -> usize
    ensures { Written out.old 0 (told number place length behind) result out.new }
{
    let at = digits(out, 0, number);
    let at = field(out, at, place);
    let at = field(out, at, length);
    let at = field(out, at, behind);
    put(b"\n", out, at)
}

fn one(b: u8) -> usize
    ensures { (result ≡ one_of b) × (result ≤ 1) }
{
    if b == 0 { 0 } else { 1 }
}

// How many bytes are not zero.
fn nonzero(bytes: &[u8]) -> usize
    ensures { result ≡ nonzero_of bytes.now }
{
    let mut count = 0;
    for b in bytes {
        count += one(*b);
    }
    count
}

// ---- all cases

// Writes an answer and its report. A write that fails is an error. No contract can say what is written: `line` says what it is.
fn tell(rt: &impl Print, a: Answer, out: &[u8]) -> io::Result<()> {
    let number = a.number;
    let length = a.length;
    let n = listing::rest_from(out.len(), length);
    let behind = nonzero(&out[n..]);
    let mut text = [0u8; 128];
    let k = line(number as usize, a.place, length, behind, &mut text);
    let k = listing::rest_from(128, k);
    rt.write_all(&text[..k])?;
    rt.write_all(&out[..n])
}

// Writes the answer for a text and an output buffer, whose bytes are the definition's.
fn run(rt: &impl Print, entry: Entry, text: &[u8], out: &mut [u8]) -> io::Result<()>
    ensures { Runs entry text.now out.old out.new }
{
    let a = generator::call(entry, text, out);
    tell(rt, a, out)
}

// One case; whether there was one. Its buffer has no zero byte before the call.
fn turn<P: Print, R: Read>(rt: &P, reader: &mut R) -> io::Result<bool> {
    let mut buffer = [0u8; 65536];
    let Some(given) = frames::take(reader, &mut buffer) else {
        return Ok(false);
    };
    let mut out = [170u8; 65536];
    let n = given.text;
    let k = listing::rest_from(65536, given.room);
    run(rt, given.entry, &buffer[..n], &mut out[..k])?;
    Ok(true)
}

// A proved loop has to end, and nothing says that the input does: so its turns are counted.
fn main(rt: HostRuntime) -> io::Result<()> {
    let mut reader = rt.reader();
    for _ in 0..u64::MAX {
        if !turn(&rt, &mut reader)? {
            break;
        }
    }
    Ok(())
}
