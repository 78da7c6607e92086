// How a test program is given its cases: each case is a frame of its standard input, which is a line feed, a letter for the entry point,
// five digits with the text's length, a space, five digits with the length of the output buffer, a line feed, and the text.
ghost use Rattle.std.specs.Prelude.{◌≡◌, ◌≤◌, length};
ghost use Rattle.cases.specs.Frames.Frames.{digit_of, five_of, entry_of, Within};

use generator::Entry;
use std::io::Read;

// The entry point of a case, and the lengths of its text and of its output buffer.
#[derive(Clone, Copy)]
pub struct Given {
    pub entry: Entry,
    pub text: usize,
    pub room: usize,
}

fn digit(b: u8) -> usize
    ensures { (result ≡ digit_of b) × (result ≤ 9) }
{
    if b < b'0' {
        return 0;
    }
    if b'9' < b {
        return 0;
    }
    (b - b'0') as usize
}

fn five(a: u8, b: u8, c: u8, d: u8, e: u8) -> usize
    ensures { (result ≡ five_of a b c d e) × (result ≤ 99999) }
{
    digit(a) * 10000 + digit(b) * 1000 + digit(c) * 100 + digit(d) * 10 + digit(e)
}

// `E` is the export, `R` the reader of an export; every other letter, and `L`, is the listing.
fn entry(b: u8) -> Entry
    ensures { result ≡ entry_of b }
{
    if b == b'E' {
        return Entry::Export;
    }
    if b == b'R' {
        return Entry::Read;
    }
    Entry::List
}

// Takes the next text into the start of a buffer. No contract can say what is read: a read that fails counts as the end.
pub fn take<R: Read>(reader: &mut R, buffer: &mut [u8]) -> Option<Given>
    ensures { Within result (length buffer.new) }
{
    let mut head = [0u8; 14];
    let got = input::read_full(reader, &mut head).unwrap_or(0);
    if got < 14 {
        return None;
    }
    let n = five(head[2], head[3], head[4], head[5], head[6]);
    let k = five(head[8], head[9], head[10], head[11], head[12]);
    if buffer.len() < n {
        return None;
    }
    let taken = input::read_full(reader, &mut buffer[..n]).unwrap_or(0);
    if taken < n {
        return None;
    }
    Some(Given {
        entry: entry(head[1]),
        text: n,
        room: k,
    })
}
