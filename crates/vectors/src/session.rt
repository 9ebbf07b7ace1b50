// What the lines so far came to: of the stream that is being read, and of all.
use crate::compare;
use crate::line::Line;
use output::Output;
use std::fmt;
use std::fmt::Write;

// What a stream's first difference is in. Lines of the output and rows are counted from 1.
#[derive(Clone, Copy)]
pub enum Difference {
    // A line stands where it cannot, or a stream cannot begin.
    Text,
    Line(u64),
    Head,
    Row(usize),
    // A row behind the last is not zero.
    Rest,
}

impl fmt::Display for Difference {
    fn fmt<W: fmt::Write>(&self, f: &mut fmt::Formatter<W>) -> fmt::Result {
        match *self {
            Difference::Text => write!(f, ": text"),
            Difference::Line(nth) => write!(f, ": line {nth}"),
            Difference::Head => write!(f, ": head"),
            Difference::Row(nth) => write!(f, ": row {nth}"),
            Difference::Rest => write!(f, ": rest"),
        }
    }
}

// How far the lines are in a stream.
#[derive(Clone, Copy, PartialEq, Eq)]
enum Stage {
    // Between streams.
    Ended,
    Begun,
    // Its commands were run; their answers follow.
    Ran,
    // Its head was read; its rows follow.
    Held,
    // Behind what is no line.
    Lost,
}

impl Stage {
    // Where this line may stand.
    fn before(line: Line<'_>) -> Stage {
        match line {
            Line::Stream(_) => Stage::Ended,
            Line::In(_) => Stage::Begun,
            Line::Out(_) | Line::Head(_) => Stage::Ran,
            Line::Row(_) | Line::End => Stage::Held,
        }
    }

    fn behind(line: Line<'_>) -> Stage {
        match line {
            Line::Stream(_) => Stage::Begun,
            Line::In(_) | Line::Out(_) => Stage::Ran,
            Line::Head(_) | Line::Row(_) => Stage::Held,
            Line::End => Stage::Ended,
        }
    }
}

// The stream that is being read.
#[derive(Clone, Copy)]
struct Stream {
    // Bytes of the memory that is lent to it.
    size: usize,
    // Bytes of the output that the run wrote, and those that were compared.
    written: usize,
    compared: usize,
    // Lines of the output and rows of the memory that were compared.
    lines: u64,
    rows: usize,
    difference: Option<Difference>,
}

impl Stream {
    fn new(size: usize) -> Stream {
        Stream {
            size,
            written: 0,
            compared: 0,
            lines: 0,
            rows: 0,
            difference: None,
        }
    }
}

#[derive(Clone, Copy)]
pub struct Session {
    stage: Stage,
    stream: Stream,
    // Of all streams.
    streams: u64,
    commands: u64,
    differences: u64,
}

impl Session {
    pub fn new() -> Session {
        Session {
            stage: Stage::Ended,
            stream: Stream::new(0),
            streams: 0,
            commands: 0,
            differences: 0,
        }
    }

    // Another stream, with so many bytes of memory.
    pub fn begin(&mut self, size: usize) {
        self.stream = Stream::new(size);
        self.streams = self.streams.saturating_add(1);
    }

    // The bytes of memory that the stream has.
    pub fn size(&self) -> usize {
        self.stream.size
    }

    // A line that has come may stand in a wrong place.
    pub fn advance(&mut self, line: Line<'_>) {
        let is_due = self.stage == Stage::before(line);
        self.expect(is_due, Difference::Text);
        self.stage = Stage::behind(line);
    }

    // What came is no line.
    pub fn lose(&mut self) {
        self.expect(false, Difference::Text);
        self.stage = Stage::Lost;
    }

    // Only a stream's first difference is kept.
    pub fn expect(&mut self, is_same: bool, difference: Difference) {
        if !is_same && self.stream.difference.is_none() {
            self.stream.difference = Some(difference);
        }
    }

    // The stream's commands were run.
    pub fn run(&mut self, written: usize) {
        self.stream.written = written;
    }

    pub fn answer(&mut self, answer: Option<&[u8]>, output: &[u8]) {
        let stream = self.stream;
        let nth = stream.lines.saturating_add(1);
        self.stream.lines = nth;
        self.commands = self.commands.saturating_add(1);
        let end = answer.and_then(|answer| {
            compare::answer_end(answer, output, stream.compared, stream.written)
        });
        match end {
            Some(end) => self.stream.compared = end,
            None => self.expect(false, Difference::Line(nth)),
        }
    }

    pub fn row(&mut self, memory: &[u8], recorded: &[u8]) {
        let n = self.stream.rows;
        let nth = n.saturating_add(1);
        self.stream.rows = nth;
        self.expect(compare::same_row(memory, n, recorded), Difference::Row(nth));
    }

    // A line of the output that was not recorded is a difference too.
    pub fn end(&mut self, memory: &[u8]) {
        let stream = self.stream;
        let nth = stream.lines.saturating_add(1);
        self.expect(stream.compared == stream.written, Difference::Line(nth));
        self.expect(compare::rest_is_zero(memory, stream.rows), Difference::Rest);
        self.report();
    }

    // The line of the stream that has ended. A stream that ends twice is told twice, and differs once.
    fn report(&mut self) {
        let nth = self.streams;
        let Stream {
            lines,
            rows,
            difference,
            ..
        } = self.stream;
        match difference {
            None => {
                let _ = writeln!(Output, "stream {nth}: {lines} commands, {rows} rows, same");
            }
            Some(difference) => {
                self.differences = self.differences.saturating_add(1).min(nth);
                let _ = writeln!(Output, "stream {nth}{difference} differs");
            }
        }
    }

    // The line of all streams. A text that ends inside a stream has a stream that differs.
    pub fn close(mut self) {
        if self.stage != Stage::Ended {
            self.expect(false, Difference::Text);
            self.report();
        }
        let streams = self.streams;
        let commands = self.commands;
        let differences = self.differences;
        let _ = writeln!(
            Output,
            "{streams} streams, {commands} commands, {differences} differences"
        );
    }
}
