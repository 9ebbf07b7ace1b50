// The lines of the text.
use types::placed::Funding;

#[derive(Clone, Copy)]
pub enum Line {
    // The next ones are for the memory of so many rows alone, or for both.
    Only(Option<u64>),
    Step(Step),
}

#[derive(Clone, Copy)]
pub enum Step {
    PrintRow,
    // What is stored as the low byte of row 0's stamp, seq.
    Stamp(u64),
    Calls(Calls),
}

// A call of the list, on the keys from `key` to `last`, or on `key` alone.
#[derive(Clone, Copy)]
pub struct Calls {
    pub list: u64,
    pub call: Call,
    pub key: u64,
    pub last: u64,
}

// What a call takes beside its key, which is max_entries for fresh; `len` is the number of a path's elements.
#[derive(Clone, Copy)]
pub enum Call {
    Fresh {
        ttl: u64,
    },
    Insert {
        len: u64,
        time: u64,
    },
    InsertWithTtl {
        len: u64,
        time: u64,
        ttl: u64,
    },
    InsertFunded {
        len: u64,
        time: u64,
        funding: Funding,
    },
    InsertStated {
        len: u64,
        time: u64,
        funding: Funding,
    },
    InsertVerified {
        len: u64,
        time: u64,
    },
    InsertVerifiedWithPathMtu {
        len: u64,
        time: u64,
        mtu: u16,
    },
    Get {
        time: u64,
    },
    Touch {
        time: u64,
    },
    Demote,
    Clear,
}

impl Line {
    // Numbers that are left out are 0, those past the seventh are dropped. None where there is none at all: a comment, which goes from `#`
    // to the line's end, or nothing. Each number ends at a byte that is no digit, and `#` ends none.
    pub fn parse(line: &[u8]) -> Option<Line> {
        let mut words = numbered(line)
            .split(|b| !b.is_ascii_digit())
            .filter(|word| !word.is_empty())
            .map(number);
        let list = words.next()?;
        let mut numbers = [0; 6];
        for (number, word) in numbers.iter_mut().zip(words) {
            *number = word;
        }
        let [code, key, len, time, more, last] = numbers;
        if list == 0 {
            let rows = code;
            return Some(Line::Only((rows != 0).then_some(rows)));
        }
        Some(Line::Step(match code {
            98 => Step::PrintRow,
            99 => Step::Stamp(key),
            _ => Step::Calls(Calls {
                list,
                call: Call::read(code, len, time, more),
                key,
                last,
            }),
        }))
    }
}

impl Call {
    // By 01's codes; any other one clears. `more` is the ttl, the amount of Upto, or the MTU.
    fn read(code: u64, len: u64, time: u64, more: u64) -> Call {
        let funding = Funding::Upto(more);
        match code {
            0 => Call::Fresh { ttl: len },
            10 => Call::Insert { len, time },
            11 => Call::InsertWithTtl {
                len,
                time,
                ttl: more,
            },
            12 => Call::InsertFunded { len, time, funding },
            13 => Call::InsertStated { len, time, funding },
            14 => Call::InsertVerified { len, time },
            15 => Call::InsertVerifiedWithPathMtu {
                len,
                time,
                mtu: (more % 65536) as u16,
            },
            20 => Call::Get { time },
            21 => Call::Touch { time },
            23 => Call::Demote,
            _ => Call::Clear,
        }
    }
}

// What stands in front of a comment, without a number that touches it.
fn numbered(line: &[u8]) -> &[u8] {
    let Some(end) = line.iter().position(|b| *b == b'#') else {
        return line;
    };
    let text = &line[..end];
    let digits = text.iter().rev().take_while(|b| b.is_ascii_digit()).count();
    &text[..end - digits]
}

// Digits are bytes 30 to 39, in hex. Of a long number those behind the first sixteen are dropped.
fn number(digits: &[u8]) -> u64 {
    digits.iter().fold(0, |number: u64, digit| {
        if number < 1000000000000000 {
            number * 10 + u64::from(*digit % 16)
        } else {
            number
        }
    })
}
