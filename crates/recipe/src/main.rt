// The program. Without a word it reads a model text from standard input and writes its listing, with `--mps` its export; with
// `--read-mps` it reads an export and writes what it says. A refusal is one line with its number and place.
#![tactic(auto)]

ghost use Rattle.std.specs.Prelude.{◌≡◌, length};
ghost use Rattle.recipe.specs.Printed.{Tells, Prints};
ghost use Rattle.recipe.specs.Asked.{job_of};

use generator::{Answer, Entry};
use std::env::{Env, FillError};
use std::io;
use std::io::{Eprint, Print};

// ---- the program's word

fn named(word: &[u8]) -> Option<Entry>
    ensures { result ≡ job_of word.now }
{
    if word == b"--mps".as_slice() {
        return Some(Entry::Export);
    }
    if word == b"--read-mps".as_slice() {
        return Some(Entry::Read);
    }
    None
}

// Whether the program was given a word at this place; its own name stands at 0.
fn has_word(rt: &impl Env, place: usize) -> bool {
    let mut word = [0u8; 16];
    !matches!(rt.arg(place, &mut word), Err(FillError::NotPresent))
}

// No contract can say what word is there: `named` says what it means. No word that means something is longer than 16 bytes.
fn asked(rt: &impl Env) -> Option<Entry> {
    if has_word(rt, 2) {
        return None;
    }
    let mut word = [0u8; 16];
    match rt.arg(1, &mut word) {
        Ok(k) => named(&word[..k]),
        Err(FillError::NotPresent) => Some(Entry::List),
        Err(FillError::TooLong) => None,
    }
}

// ---- the answer

// What stands in the output after a call: the report or the refusal's line, and its length.
fn tell(a: Answer, out: &mut [u8]) -> usize
    requires { length out.old ≡ 65536 }
    ensures { Tells a out.old result out.new }
{
    if a.number == 0 {
        return a.length;
    }
    listing::refused(a.number as usize, a.place, out)
}

fn answer(entry: Entry, text: &[u8], out: &mut [u8]) -> usize
    requires { length out.old ≡ 65536 }
    ensures { Prints entry text.now result out.new }
{
    let a = generator::call(entry, text, out);
    tell(a, out)
}

// ---- input and output. A read or a write that fails ends the program with its error

fn print(rt: &impl Print, entry: Entry, text: &[u8]) -> io::Result<()> {
    let mut out = [0u8; 65536];
    let m = answer(entry, text, &mut out);
    rt.write_all(&out[..m])
}

// A model text, with one byte more than the longest one: a longer input is refused, whatever its other bytes are. What is left of
// the input is read too.
fn model<R: Input + Print>(rt: &R, entry: Entry) -> io::Result<()> {
    let mut text = [0u8; 16385];
    let mut reader = rt.reader();
    let n = input::read_full(&mut reader, &mut text)?;
    io::copy(&mut reader, &mut io::sink())?;
    print(rt, entry, &text[..n])
}

// An export, with one byte more than 256 KiB. One whose report has at most 65,536 bytes is shorter; a longer input gets no answer.
fn export<R: Input + Print + Eprint>(rt: &R) -> io::Result<()> {
    let mut text = [0u8; 262145];
    let mut reader = rt.reader();
    let n = input::read_full(&mut reader, &mut text)?;
    io::copy(&mut reader, &mut io::sink())?;
    if n > 262144 {
        eprintln!(rt; "recipe: the input is longer than 256 KiB")?;
        return Ok(());
    }
    print(rt, Entry::Read, &text[..n])
}

fn run<R: Input + Print + Eprint>(rt: &R, entry: Entry) -> io::Result<()> {
    match entry {
        Entry::Read => export(rt),
        _ => model(rt, entry),
    }
}

fn main(rt: HostRuntime) -> io::Result<()> {
    let Some(entry) = asked(&rt) else {
        eprintln!(rt; "usage: recipe [--mps | --read-mps] < FILE")?;
        return Ok(());
    };
    run(&rt, entry)
}
