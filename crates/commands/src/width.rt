// Widths of operands, in bytes, and where each stands among them; sums, as rules' Commands has them. A key or an address alone has
// the bytes of an address, a time alone those of a number.
use raw::layout::{ADDRESS, BYTE, MTU_BYTES, NUMBER};

// 00: max, ttl.
const MAX_BYTES: usize = 2;

pub const FRESH_TTL: usize = MAX_BYTES;

pub const FRESH: usize = FRESH_TTL + NUMBER;

// Key, time.
pub const TIME: usize = ADDRESS;

pub const KEY_TIME: usize = TIME + NUMBER;

// Behind them a ttl.
pub const TTL: usize = KEY_TIME;

pub const WITH_TTL: usize = TTL + NUMBER;

// A funding: kind, amount.
pub const KIND: usize = KEY_TIME;

pub const AMOUNT: usize = KIND + BYTE;

pub const WITH_FUNDING: usize = AMOUNT + NUMBER;

// An MTU.
pub const MTU: usize = KEY_TIME;

pub const WITH_MTU: usize = MTU + MTU_BYTES;
