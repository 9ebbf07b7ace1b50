// The calls that need no room, on a fresh, a full and a foreign state; on unsound states, each condition in turn; on memory
// of every length up to 3 rows, and of 1,025 rows. A fresh that is done, on all of these states. What it prints is held to `stdout`.
#![tactic(auto)]

mod calls;
mod states;

ghost use Rattle.std.specs.Prelude.{◌≡◌, ◌≤◌, ◌+◌, length};
ghost use Rattle.rules.specs.Records.{max_rows};
ghost use Rattle.rules.specs.Layout.{memory_size};

use calls::{CALLS, Call, FRESH_2, FRESH_3, Said};
use memory::bounds::MAX_ROWS;
use output::Output;
use raw::layout::{HEAD, ROW};
use states::{Kind, SPOILT, make, spoil, zeroed};
use std::fmt::Write;

// The bytes of a memory of 3 rows, with some behind the last row.
const SIZE: usize = 4096;

// The length of 3 rows.
const LAST: usize = HEAD + 3 * ROW;

// Each byte counts with its place, so that bytes changed, moved or swapped show.
fn sum(bytes: &[u8]) -> u32 {
    bytes.iter().fold(0, |sum: u32, byte| {
        ((u64::from(sum) * 31 + u64::from(*byte) + 1) % 4294967291) as u32
    })
}

// What the calls, and fresh, answer on a state, and a sum over the memory that each leaves.
fn answers(kind: Kind) {
    let number = kind as u8;
    for (nth, call) in CALLS.into_iter().chain([FRESH_2]).enumerate() {
        let mut memory = zeroed::<SIZE>();
        make(&mut memory, kind);
        let Said { refusal, value } = call.ask(&mut memory);
        let sum = sum(&memory);
        let _ = writeln!(Output, "{number} {nth} {refusal} {value} {sum}");
    }
}

// Whether this call is refused by that number and leaves the memory as it was before.
fn refuses(call: Call, memory: &mut [u8], before: &[u8], refusal: u8) -> bool {
    let said = call.ask(memory);
    said == Said { refusal, value: 0 } && *memory == *before
}

// How many of the calls that need a sound state refuse this memory by 1 and leave it.
fn refusals(memory: &mut [u8], before: &[u8]) -> u64
    ensures { result ≤ 21 }
{
    let mut count = 0;
    for call in CALLS {
        count += u64::from(refuses(call, memory, before, 1));
    }
    count
}

// Whether fresh is done, and what it leaves is a sound state.
fn renews(memory: &mut [u8]) -> bool {
    FRESH_2.ask(memory).refusal == 0 && state::check::is_sound(memory)
}

// How many calls refuse each unsound state; whether fresh makes it sound, and a sum over the memory then.
fn bad_states() {
    let number = Kind::Bad as u8;
    for (nth, changes) in SPOILT.into_iter().enumerate() {
        let mut memory = zeroed::<SIZE>();
        make(&mut memory, Kind::Bad);
        spoil(&mut memory, changes);
        let before = memory;
        let refused = refusals(&mut memory, &before);
        let renewed = renews(&mut memory) as u8;
        let sum = sum(&memory);
        let _ = writeln!(Output, "{number} {nth} {refused} {renewed} {sum}");
    }
}

// How many of the calls refuse a memory because of its length; fresh among them, by 5.
fn length_refusals(memory: &mut [u8], before: &[u8]) -> u64
    ensures { result ≤ 22 }
{
    refusals(memory, before) + u64::from(refuses(FRESH_3, memory, before, 5))
}

// How many calls were refused, over all lengths up to that of 3 rows.
fn short_lengths() {
    let number = Kind::Short as u8;
    let mut memory = zeroed::<SIZE>();
    make(&mut memory, Kind::Short);
    let before = memory;
    let mut count = 0;
    for length in 0..LAST + 1 {
        count += length_refusals(&mut memory[..length], &before[..length]);
    }
    let _ = writeln!(Output, "{number} {count}");
}

// A row more than there may be.
const LONG: usize = HEAD + (MAX_ROWS as usize + 1) * ROW;

fn long_memory() -> [u8; LONG]
    ensures { memory_size (max_rows + 1) ≡ length result }
{
    zeroed()
}

// A fresh head for 2 entries and no rows: only that R is over MAX_ROWS is wrong.
fn long_length() {
    let number = Kind::Long as u8;
    let mut memory = long_memory();
    make(&mut memory, Kind::Long);
    let before = memory;
    let count = length_refusals(&mut memory, &before);
    let _ = writeln!(Output, "{number} {count}");
}

// What cannot be written is dropped.
fn main() {
    answers(Kind::Fresh);
    answers(Kind::Full);
    answers(Kind::Foreign);
    bad_states();
    short_lengths();
    long_length();
}
