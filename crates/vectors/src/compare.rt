// What a stream left, against what was recorded.
use raw::layout::{
    CREATED_AT, DEFAULT_TTL, ELEMENT, ENTRY, HEAD, MAX_ENTRIES, PATH_PLACES, ROW, ROW_COUNT, SEQ,
    STORED_WEIGHT,
};
use raw::numbers::read_u64;
use types::coord::PLACES;

// Where in the output, of which `written` bytes count, the answer that stands from `at` on ends; none where another stands there, or none.
pub fn answer_end(answer: &[u8], output: &[u8], at: usize, written: usize) -> Option<usize> {
    let left = output.get(at..written)?;
    let behind = left.strip_prefix(answer)?;
    let end = written - behind.len();
    (0 < end).then_some(end)
}

// The head's five numbers, in the order of the line.
pub fn same_head(memory: &[u8], head: [u64; 5]) -> bool {
    if memory.len() < HEAD {
        return false;
    }
    let held = [
        read_u64(memory, MAX_ENTRIES),
        read_u64(memory, DEFAULT_TTL),
        read_u64(memory, SEQ),
        read_u64(memory, STORED_WEIGHT),
        read_u64(memory, ROW_COUNT),
    ];
    held == head
}

fn rows(memory: &[u8]) -> &[[u8; ROW]] {
    let behind_head = memory.get(HEAD..).unwrap_or(&[]);
    behind_head.as_chunks::<ROW>().0
}

// The row of which these bytes were recorded: the places behind those in use are left out of them, and zero.
fn whole_row(recorded: &[u8]) -> Option<[u8; ROW]> {
    let length = usize::from(*recorded.get(ENTRY)?);
    if length > PLACES {
        return None;
    }
    let (front, back) = recorded.split_at_checked(PATH_PLACES + length * ELEMENT)?;
    if back.len() != ROW - CREATED_AT {
        return None;
    }
    let mut row = [0; ROW];
    row[..front.len()].copy_from_slice(front);
    row[CREATED_AT..].copy_from_slice(back);
    Some(row)
}

// Row `n` of the memory against its recorded bytes.
pub fn same_row(memory: &[u8], n: usize, recorded: &[u8]) -> bool {
    match (rows(memory).get(n), whole_row(recorded)) {
        (Some(held), Some(row)) => *held == row,
        _ => false,
    }
}

// Whether the rows from `n` on are zero.
pub fn rest_is_zero(memory: &[u8], n: usize) -> bool {
    rows(memory).iter().skip(n).all(|row| *row == [0; ROW])
}
