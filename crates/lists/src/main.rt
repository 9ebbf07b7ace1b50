// Small lists of calls, read from `stdin`, on 24 rows and again on 1,024 rows. What is printed is held to `stdout`,
// which was derived by hand.
#![tactic(auto)]

mod calls;
mod line;
mod print;

ghost use Rattle.std.specs.Prelude.{◌≡◌, length};
ghost use Rattle.rules.specs.Layout.{memory_size};

use line::{Calls, Line, Step};
use memory::bounds::MAX_ROWS;
use raw::layout::{HEAD, ROW, STAMP_SEQ};

const FEW: u64 = 24;

const SHORT: usize = HEAD + FEW as usize * ROW;

const LONG: usize = HEAD + MAX_ROWS as usize * ROW;

// Only the last line is printed.
fn make(memory: &mut [u8], calls: Calls) {
    let Calls {
        list,
        call,
        key: first,
        last,
    } = calls;
    for key in first..last {
        call.on(memory, key);
    }
    let reply = call.on(memory, first.max(last));
    print::reply(memory, list, reply);
}

// The low byte of row 0's stamp, seq.
fn stamp(memory: &mut [u8], seq: u64) {
    if let Some(byte) = memory.get_mut(HEAD + STAMP_SEQ) {
        *byte = (seq % 256) as u8;
    }
}

fn take(memory: &mut [u8], step: Step) {
    match step {
        Step::PrintRow => print::row(memory),
        Step::Stamp(seq) => stamp(memory, seq),
        Step::Calls(calls) => make(memory, calls),
    }
}

// The lists, on a memory of so many rows.
fn run(text: &[u8], memory: &mut [u8], rows: u64)
    requires { memory_size rows ≡ length memory.old }
{
    let mut only = None;
    let lines = text
        .split_inclusive(|b| *b == b'\n')
        .filter_map(|line| line.strip_suffix(b"\n"));
    for line in lines {
        match Line::parse(line) {
            Some(Line::Only(for_rows)) => only = for_rows,
            Some(Line::Step(step)) if only.unwrap_or(rows) == rows => take(memory, step),
            _ => {}
        }
    }
}

// Behind a function, so that a proof sees a length in place of so many zeros.
fn zeroed<const N: usize>() -> [u8; N]
    ensures { N ≡ length result }
{
    [0; N]
}

// What cannot be read is the end of the text, and what cannot be written is dropped.
fn main() {
    let mut space = io::large_buffer();
    let n = io::read_full(0, &mut space);
    let text = &space[..n];
    let mut few = zeroed::<SHORT>();
    let mut most = zeroed::<LONG>();
    run(text, &mut few, FEW);
    run(text, &mut most, MAX_ROWS);
}
