// Commands from standard input, one line each to standard output: 24 rows, starting fresh at max 8, ttl 300000. Input of any
// length runs in the same memory. At its end, after a refusal by 6, or where it cannot read or write, the tally goes to standard
// error.
#![tactic(auto)]

ghost use Rattle.std.specs.Prelude.{◌≡◌, length};
ghost use Rattle.rules.specs.Commands.{coordrun_rows};
ghost use Rattle.rules.specs.Layout.{memory_size};

use raw::layout::{HEAD, ROW};
use std::io;
use std::io::Read;
use stream::run::Ran;
use stream::stop::Stop;
use types::reply::Tally;
use types::sender::Sender;

const ROWS: usize = 24;

const MEMORY: usize = HEAD + ROWS * ROW;

// Bytes of the input, and of the output, at a time.
const BUFFER: usize = 65536;

fn memory_of_24_rows() -> [u8; MEMORY]
    ensures { (memory_size coordrun_rows) ≡ length result }
{
    [0; MEMORY]
}

// What the next turn does.
#[derive(Clone, Copy)]
enum Next {
    Read,
    Run,
    Over,
}

// What one turn leaves for the next.
#[derive(Clone, Copy)]
struct Session {
    // Bytes at the start of the input that are still to run.
    filled: usize,
    sender: Sender,
    tally: Tally,
    // The input has ended.
    last: bool,
    next: Next,
}

impl Session {
    fn new() -> Session {
        Session {
            filled: 0,
            sender: Sender::new(),
            tally: Tally {
                done: 0,
                refused: 0,
            },
            last: false,
            next: Next::Read,
        }
    }

    // One read, behind the bytes that are there. The input is never full: a run that wants more leaves less than one command.
    fn read(&mut self, rt: &HostRuntime, input: &mut [u8]) {
        self.next = Next::Run;
        let filled = self.filled;
        if filled >= input.len() {
            return;
        }
        match rt.stdin().read(&mut input[filled..]) {
            Ok(0) => self.last = true,
            Ok(more) => self.filled = filled + more,
            Err(error) => self.fail(rt, "standard input", error),
        }
    }

    // Its commands count also where their lines cannot be written.
    fn run(&mut self, rt: &HostRuntime, memory: &mut [u8], input: &mut [u8], output: &mut [u8]) {
        let filled = self.filled;
        if filled > input.len() {
            self.next = Next::Over;
            return;
        }
        let Ran {
            used,
            written,
            sender,
            tally,
            stop,
        } = stream::run::run(
            memory,
            self.sender,
            self.tally,
            &input[..filled],
            self.last,
            output,
        );
        *self = Session {
            filled: stream::run::keep_unused(input, used, filled),
            sender,
            tally,
            last: self.last,
            next: self.behind(stop),
        };
        if let Err(error) = rt.stdout().write_all(&output[..written]) {
            self.fail(rt, "standard output", error);
        }
    }

    // What the turn behind a run does, by why the run ended.
    fn behind(&self, stop: Stop) -> Next {
        match stop {
            Stop::Full => Next::Run,
            Stop::Six => Next::Over,
            Stop::End | Stop::Cut if self.last => Next::Over,
            Stop::End | Stop::Cut => Next::Read,
        }
    }

    // Where that cannot be told either, nothing is left to do.
    fn fail(&mut self, rt: &HostRuntime, what: &str, error: io::Error) {
        let _ = report(rt, what, error);
        self.next = Next::Over;
    }
}

// What could not be done, and why, on standard error: the system's words for it, without their number.
fn report(rt: &HostRuntime, what: &str, error: io::Error) -> io::Result<()> {
    let text = format!(in rt.alloc(); "{error}")?;
    let text = text.as_str();
    let (why, _) = text.split_once(" (os error ").unwrap_or((text, ""));
    eprintln!(rt; "coordrun: {what}: {why}")
}

// A proved loop has to end, and nothing says that the input does. So it has as many turns as no run uses up.
// 24 rows are room enough for max 8, so fresh is done (stream, StreamDemand.fresh_24).
fn serve(rt: &HostRuntime, memory: &mut [u8], input: &mut [u8], output: &mut [u8]) -> Tally {
    let _ = state::fresh::fresh(memory, 8, 300000);
    let mut session = Session::new();
    for _ in 0..u64::MAX {
        match session.next {
            Next::Read => session.read(rt, input),
            Next::Run => session.run(rt, memory, input, output),
            Next::Over => break,
        }
    }
    session.tally
}

fn main(rt: HostRuntime) {
    let mut memory = memory_of_24_rows();
    let mut input = [0; BUFFER];
    let mut output = [0; BUFFER];
    let Tally { done, refused } = serve(&rt, &mut memory, &mut input, &mut output);
    let _ = eprintln!(rt; "coordrun: {done} done, {refused} refused");
}
