// Recorded streams of commands, read from `stdin`, run again: the replies, the head and the rows that a stream leaves are held to
// what the original replied and held. `stdin` says how it was made and what its lines are; 65,536 bytes of it are read.
#![tactic(auto)]

mod compare;
mod line;
mod session;

ghost use Rattle.std.specs.Prelude.{◌≡◌, length};
ghost use Rattle.rules.specs.Layout.{memory_size};

use line::{Line, decode};
use raw::layout::{HEAD, ROW};
use session::{Difference, Session};
use types::reply::Tally;
use types::sender::Sender;

// The most that a stream has.
const ROWS: u64 = 66;

const SIZE: usize = HEAD + ROWS as usize * ROW;

fn whole_memory() -> [u8; SIZE]
    ensures { memory_size 66 ≡ length result }
{
    [0; SIZE]
}

// The bytes of a memory of so many rows; none where they are too many.
fn size(rows: u64) -> usize {
    if rows <= ROWS {
        HEAD + rows as usize * ROW
    } else {
        0
    }
}

// Runs the commands of a line, from an empty pending path: how many bytes of the output they wrote.
fn run(memory: &mut [u8], digits: &[u8], buffer: &mut [u8], output: &mut [u8]) -> usize {
    let commands = decode(digits, buffer);
    let tally = Tally {
        done: 0,
        refused: 0,
    };
    let ran = stream::run::run(memory, Sender::new(), tally, commands, true, output);
    ran.written
}

// A line of the stream that has this memory. Each stream begins on what the one before left.
fn take(
    line: Line<'_>,
    memory: &mut [u8],
    buffer: &mut [u8],
    output: &mut [u8],
    session: &mut Session,
) {
    match line {
        Line::Stream(start) => {
            let fresh = state::fresh::fresh(memory, start.max, start.ttl);
            session.expect(fresh.is_ok(), Difference::Text);
        }
        Line::In(Some(digits)) => session.run(run(memory, digits, buffer, output)),
        Line::In(None) => {}
        Line::Out(answer) => session.answer(answer, output),
        Line::Head(head) => session.expect(compare::same_head(memory, head), Difference::Head),
        Line::Row(Some(digits)) => session.row(memory, decode(digits, buffer)),
        Line::Row(None) => session.row(memory, &[]),
        Line::End => session.end(memory),
    }
}

fn replay(
    line: &[u8],
    memory: &mut [u8],
    buffer: &mut [u8],
    output: &mut [u8],
    session: &mut Session,
) {
    let Some(line) = Line::parse(line) else {
        session.lose();
        return;
    };
    if let Line::Stream(start) = line {
        session.begin(size(start.rows));
    }
    session.advance(line);
    if let Some(memory) = memory.get_mut(..session.size()) {
        take(line, memory, buffer, output, session);
    }
}

// What cannot be read is the end of the text, and what cannot be written is dropped.
fn main() {
    let mut memory = whole_memory();
    let mut space = io::large_buffer();
    let mut output = io::large_buffer();
    let n = io::read_full(0, &mut space);
    // the bytes of a line in hex
    let mut buffer = io::buffer();
    let mut session = Session::new();
    let lines = space[..n].split_inclusive(|b| *b == b'\n');
    for line in lines.filter(|line| !line.starts_with(b"#")) {
        replay(line, &mut memory, &mut buffer, &mut output, &mut session);
    }
    session.close();
}
