// The lines of the recorded text, each with its newline.
ghost use Rattle.std.specs.Prelude.{◌≤◌, length};

// One that stands for something, by the byte that it begins with. Bytes are in hex: none where the line ends before they could begin.
#[derive(Clone, Copy)]
pub enum Line<'a> {
    Stream(Start),
    In(Option<&'a [u8]>),
    Out(Option<&'a [u8]>),
    Head([u64; 5]),
    Row(Option<&'a [u8]>),
    End,
}

// Where a stream begins: how many rows its memory has, and the limits that it starts fresh at.
#[derive(Clone, Copy)]
pub struct Start {
    pub rows: u64,
    pub max: u64,
    pub ttl: u64,
}

impl<'a> Line<'a> {
    pub fn parse(line: &'a [u8]) -> Option<Line<'a>> {
        match *line.first()? {
            b's' => {
                let [rows, max, ttl] = numbers::<3>(line);
                Some(Line::Stream(Start { rows, max, ttl }))
            }
            b'i' => Some(Line::In(line.get(3..))),
            b'o' => Some(Line::Out(line.get(4..))),
            b'h' => Some(Line::Head(numbers(line))),
            b'r' => Some(Line::Row(line.get(4..))),
            b'e' => Some(Line::End),
            _ => None,
        }
    }
}

// As many numbers, apart by spaces, behind the word that names the line; 0 for those left out.
fn numbers<const N: usize>(line: &[u8]) -> [u64; N] {
    let words = line.split(|b| *b == b' ').skip(1);
    let mut numbers = [0; N];
    for (place, word) in numbers.iter_mut().zip(words) {
        *place = number(word);
    }
    numbers
}

// Digits are bytes 30 to 39, in hex, and those below are dropped; nineteen digits at most count: no recorded head has a longer number.
fn number(word: &[u8]) -> u64 {
    word.iter().fold(0, |number: u64, b| {
        if b'0' <= *b && number < 1000000000000000000 {
            number * 10 + u64::from(*b % 16)
        } else {
            number
        }
    })
}

// The low half of a byte has what the digit says: 0 to 9 are bytes 30 to 39 in hex, a to f are 61 to 66.
fn digit(b: u8) -> u8 {
    if b < b'a' { b } else { b % 16 + 9 }
}

// The bytes of hex digits, at the front of a buffer: none where there is no room for all. A digit without another is left out.
pub fn decode<'a>(digits: &[u8], buffer: &'a mut [u8]) -> &'a [u8]
    ensures { length result.now ≤ length buffer.old }
{
    let pairs = digits.as_chunks::<2>().0;
    match buffer.get_mut(..pairs.len()) {
        Some(bytes) => {
            for (byte, [high, low]) in bytes.iter_mut().zip(pairs) {
                *byte = digit(*high) % 16 * 16 + digit(*low) % 16;
            }
            bytes
        }
        None => &[],
    }
}
