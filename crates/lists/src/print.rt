// The lines of the output.
use output::Output;
use raw::layout::{
    CREATED_AT, EXPIRES_AT, HEAD, LAST_USED, MTU, MTU_MARK, ROW, ROW_COUNT, SEQ, SOURCE,
    STORED_WEIGHT, VERIFIED_UNTIL,
};
use raw::numbers::{read_u16, read_u64};
use std::fmt::Write;
use types::reply::Reply;

// The list of a call, its reply, and the head's rows held, seq and stored weight.
pub fn reply(memory: &[u8], list: u64, reply: Reply) {
    if memory.len() < HEAD {
        return;
    }
    let refusal = reply.refusal;
    let [a, b, c, d, e] = reply.values;
    let held = read_u64(memory, ROW_COUNT);
    let seq = read_u64(memory, SEQ);
    let stored = read_u64(memory, STORED_WEIGHT);
    let _ = writeln!(
        Output,
        "{list} {refusal} {a} {b} {c} {d} {e} {held} {seq} {stored}"
    );
}

// Row 0's created_at, last_used, expires_at, MTU mark and value, source, verified_until.
pub fn row(memory: &[u8]) {
    if memory.len() < HEAD + ROW {
        return;
    }
    let row = &memory[HEAD..HEAD + ROW];
    let created = read_u64(row, CREATED_AT);
    let used = read_u64(row, LAST_USED);
    let expires = read_u64(row, EXPIRES_AT);
    let mark = row[MTU_MARK];
    let mtu = read_u16(row, MTU);
    let source = row[SOURCE];
    let until = read_u64(row, VERIFIED_UNTIL);
    let _ = writeln!(
        Output,
        "row {created} {used} {expires} {mark} {mtu} {source} {until}"
    );
}
