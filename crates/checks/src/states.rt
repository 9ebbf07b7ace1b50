// States of 3 rows made field by field, and what makes one of them unsound.
ghost use Rattle.std.specs.Prelude.{◌≡◌, ◌+◌, ◌≤◌, length};
ghost use Rattle.rules.specs.Layout.{address_size};

use crate::calls::address;
use raw::layout::{
    ADDRESS, CREATED_AT, DEFAULT_TTL, ELEMENT, ENTRY, EXPIRES_AT, HEAD, LAST_USED, MAX_ENTRIES,
    MTU, MTU_MARK, NUMBER, PATH_PLACES, PLACE, ROW, ROW_COUNT, SEQ, SOURCE, STAMP_FIRST, STAMP_SEQ,
    STORED_WEIGHT, VERIFIED_UNTIL, WEIGHT,
};
use raw::numbers::{write_u16, write_u64};

// Behind a function, so that a proof sees a length in place of so many zeros.
pub fn zeroed<const N: usize>() -> [u8; N]
    ensures { N ≡ length result }
{
    [0; N]
}

// What a memory is made as; a line of the output begins with the number.
#[derive(Clone, Copy)]
pub enum Kind {
    // No row.
    Fresh,
    // As three writes make it.
    Full,
    // Sound, and not as calls leave it.
    Foreign,
    // The foreign state, of which a byte or two are then changed.
    Bad,
    // Too short for the 3 entries that its head claims.
    Short,
    // Fresh, with a row more than there may be.
    Long,
}

// By the codes that a row has.
#[derive(Clone, Copy)]
enum Source {
    Verified,
    Hint,
}

#[derive(Clone, Copy)]
enum Place {
    Main,
    Parked,
    Probation,
}

// A row: its path goes from the key itself to the root, with 1 or 2 elements.
#[derive(Clone, Copy)]
struct Row {
    key: u8,
    root: u8,
    length: u8,
    mtu: Option<u16>,
    created: u64,
    used: u64,
    expires: u64,
    source: Source,
    until: u64,
    place: Place,
    first: u64,
    seq: u64,
    weight: u8,
}

fn put_address(row: &mut [u8], at: usize, last: u8)
    requires { at + address_size ≤ length row.old }
{
    row[at..at + ADDRESS].copy_from_slice(&address(last).0);
}

impl Row {
    // Places past the length are not zero.
    fn bytes(self) -> [u8; ROW] {
        let mut row = zeroed::<ROW>();
        put_address(&mut row, 0, self.key);
        row[ENTRY] = self.length;
        put_address(&mut row, PATH_PLACES, self.key);
        put_address(&mut row, PATH_PLACES + ELEMENT, self.root);
        write_u64(&mut row, CREATED_AT, self.created);
        write_u64(&mut row, LAST_USED, self.used);
        write_u64(&mut row, EXPIRES_AT, self.expires);
        if let Some(mtu) = self.mtu {
            row[MTU_MARK] = 1;
            write_u16(&mut row, MTU, mtu);
        }
        row[SOURCE] = self.source as u8;
        write_u64(&mut row, VERIFIED_UNTIL, self.until);
        row[PLACE] = self.place as u8;
        write_u64(&mut row, STAMP_FIRST, self.first);
        write_u64(&mut row, STAMP_SEQ, self.seq);
        row[WEIGHT] = self.weight;
        row
    }
}

// A hint that was written at this time, as the write of this `seq`.
fn hint(key: u8, root: u8, length: u8, time: u32, place: Place) -> Row {
    let time = u64::from(time);
    Row {
        key,
        root,
        length,
        mtu: None,
        created: time,
        used: time,
        expires: 300 + time,
        source: Source::Hint,
        until: 0,
        place,
        first: time,
        seq: time,
        weight: 16,
    }
}

// Two hints in main, one in probation.
fn full_rows() -> [Row; 3] {
    [
        hint(1, 9, 2, 1, Place::Main),
        hint(2, 9, 2, 2, Place::Main),
        hint(3, 3, 1, 3, Place::Probation),
    ]
}

fn foreign_rows() -> [Row; 3] {
    let parked = Row {
        key: 1,
        root: 9,
        length: 1,
        mtu: Some(1500),
        created: 1,
        used: 5,
        expires: 50,
        source: Source::Verified,
        until: 300005,
        place: Place::Parked,
        first: 300005,
        seq: 7,
        weight: 16,
    };
    // With a stale stamp, and a weight above its path's.
    let stale = Row {
        key: 2,
        root: 9,
        length: 2,
        mtu: None,
        created: 2,
        used: 6,
        expires: 20,
        source: Source::Hint,
        until: 0,
        place: Place::Main,
        first: 3,
        seq: 4,
        weight: 20,
    };
    // In probation, made after the time of the calls.
    let expired = Row {
        key: 3,
        root: 3,
        length: 1,
        mtu: None,
        created: 30,
        used: 7,
        expires: 7,
        source: Source::Hint,
        until: 0,
        place: Place::Probation,
        first: 7,
        seq: 9,
        weight: 16,
    };
    [parked, stale, expired]
}

fn put(memory: &mut [u8], at: usize, byte: u8) {
    if let Some(place) = memory.get_mut(at) {
        *place = byte;
    }
}

// For 2 entries, which fit 3 rows, and a ttl of 300.
fn put_head(memory: &mut [u8], seq: u64, stored: u64, count: u64) {
    if let Some(head) = memory.get_mut(..HEAD) {
        write_u64(head, MAX_ENTRIES, 2);
        write_u64(head, DEFAULT_TTL, 300);
        write_u64(head, SEQ, seq);
        write_u64(head, STORED_WEIGHT, stored);
        write_u64(head, ROW_COUNT, count);
    }
}

// A byte past the last row is not zero.
fn put_rows(memory: &mut [u8], rows: [Row; 3]) {
    if let Some(behind_head) = memory.get_mut(HEAD..) {
        let places = behind_head.as_chunks_mut().0;
        for (place, row) in places.iter_mut().zip(rows) {
            *place = row.bytes();
        }
    }
    put(memory, 4000, 77);
}

// Made in a memory of zeros.
pub fn make(memory: &mut [u8], kind: Kind) {
    match kind {
        Kind::Fresh | Kind::Long => put_head(memory, 0, 0, 0),
        Kind::Full => {
            put_head(memory, 3, 32, 3);
            put_rows(memory, full_rows());
        }
        Kind::Foreign | Kind::Bad => {
            put_head(memory, 9, 36, 3);
            put_rows(memory, foreign_rows());
        }
        Kind::Short => put(memory, MAX_ENTRIES, 3),
    }
}

// Where the rows stand.
const ROW_0: usize = HEAD;

const ROW_1: usize = ROW_0 + ROW;

const ROW_2: usize = ROW_1 + ROW;

// The highest byte of a number, and the last of a key.
const TOP: usize = NUMBER - 1;

const KEY_END: usize = ADDRESS - 1;

// What makes the foreign state unsound: which bytes are changed, and to what. Here M is 2 and Q is 1.
pub const SPOILT: [&[(usize, u8)]; 32] = [
    // One field of the head.
    &[(MAX_ENTRIES, 3)],
    &[(MAX_ENTRIES + TOP, 255)],
    &[(SEQ, 8)],
    &[(STORED_WEIGHT, 35)],
    &[(STORED_WEIGHT, 37)],
    &[(STORED_WEIGHT + TOP, 255)],
    &[(ROW_COUNT, 1)],
    &[(ROW_COUNT, 4)],
    &[(ROW_COUNT + TOP, 255)],
    // One field of a row: the key, the path's length, the mark, the source.
    &[(ROW_1 + KEY_END, 1)],
    &[(ROW_1, 16)],
    &[(ROW_2 + KEY_END, 2)],
    &[(ROW_0 + ENTRY, 0)],
    &[(ROW_0 + ENTRY, 33)],
    &[(ROW_2 + ENTRY, 17)],
    &[(ROW_0 + MTU_MARK, 2)],
    &[(ROW_2 + MTU_MARK, 255)],
    &[(ROW_0 + SOURCE, 1)],
    &[(ROW_1 + SOURCE, 2)],
    &[(ROW_2 + SOURCE, 0)],
    &[(ROW_1 + VERIFIED_UNTIL, 1)],
    &[(ROW_0 + VERIFIED_UNTIL, 1)],
    // A place, with the stored weight that main then has, so that nothing else is wrong. Place 3 is none; row 1 alone is in main.
    &[(ROW_0 + PLACE, 3), (STORED_WEIGHT, 20)],
    // Row 1 parked with first 0, which is its verified_until: only that it is a hint is wrong.
    &[(ROW_1 + PLACE, 1), (ROW_1 + STAMP_FIRST, 0)],
    // Rows 1 and 2 in probation, both hints; row 0 alone in main.
    &[(ROW_1 + PLACE, 2), (STORED_WEIGHT, 16)],
    // All three rows in main.
    &[(ROW_2 + PLACE, 0), (STORED_WEIGHT, 52)],
    &[(ROW_2 + PLACE, 255)],
    // One field of a row: the stamp, the weight.
    &[(ROW_0 + STAMP_FIRST, 0)],
    &[(ROW_1 + STAMP_SEQ, 10)],
    &[(ROW_2 + WEIGHT, 15)],
    &[(ROW_2 + WEIGHT, 33)],
    &[(ROW_0 + WEIGHT, 17)],
];

pub fn spoil(memory: &mut [u8], changes: &[(usize, u8)]) {
    for (at, byte) in changes {
        put(memory, *at, *byte);
    }
}
