// Where the fields of the lent memory stand, and how many bytes each has: sums of widths and places, as rules' Layout has them.
use types::coord::PLACES;
use types::node_addr::ADDRESS_BYTES;

// Widths: a mark, code, length or weight; an MTU; a number of 64 bits; an address.
pub const BYTE: usize = 1;

pub const MTU_BYTES: usize = 2;

pub const NUMBER: usize = 8;

pub const ADDRESS: usize = ADDRESS_BYTES;

// In the head, and its size.
pub const MAX_ENTRIES: usize = 0;

pub const DEFAULT_TTL: usize = MAX_ENTRIES + NUMBER;

pub const SEQ: usize = DEFAULT_TTL + NUMBER;

pub const STORED_WEIGHT: usize = SEQ + NUMBER;

pub const ROW_COUNT: usize = STORED_WEIGHT + NUMBER;

pub const HEAD: usize = ROW_COUNT + NUMBER;

// In a path element, and its size.
pub const SEQUENCE: usize = ADDRESS;

pub const TIMESTAMP: usize = SEQUENCE + NUMBER;

pub const ELEMENT: usize = TIMESTAMP + NUMBER;

// A path: its length, and all places.
pub const PATH: usize = BYTE + PLACES * ELEMENT;

// In a row, and its size.
pub const ENTRY: usize = ADDRESS;

pub const PATH_PLACES: usize = ENTRY + BYTE;

pub const CREATED_AT: usize = ENTRY + PATH;

pub const LAST_USED: usize = CREATED_AT + NUMBER;

pub const EXPIRES_AT: usize = LAST_USED + NUMBER;

pub const MTU_MARK: usize = EXPIRES_AT + NUMBER;

pub const MTU: usize = MTU_MARK + BYTE;

pub const SOURCE: usize = MTU + MTU_BYTES;

pub const VERIFIED_UNTIL: usize = SOURCE + BYTE;

pub const PLACE: usize = VERIFIED_UNTIL + NUMBER;

pub const STAMP_FIRST: usize = PLACE + BYTE;

pub const STAMP_SEQ: usize = STAMP_FIRST + NUMBER;

pub const WEIGHT: usize = STAMP_SEQ + NUMBER;

pub const ROW: usize = WEIGHT + BYTE;
