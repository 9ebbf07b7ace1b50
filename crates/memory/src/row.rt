// A row where it stands: read as a Row, which contracts see as the rules' record, and set by the functions that take the memory, the
// number of rows and the row's index. The offsets are raw::layout's (docs/PACKING.md), counted from the row's first byte.
ghost use Rattle.std.specs.Prelude.{◌≡◌, ◌+◌, ◌*◌, ◌≤◌, ◌<◌, length};
ghost use Rattle.std.proofs.lemmas.List.Edits.{sets};
ghost use Rattle.std.specs.Iterator.{YieldsFirst, item_count};
ghost use Rattle.rules.specs.Records.{empty_entry, with_mtu, with_source, with_times};
ghost use Rattle.rules.specs.Rows.{row_at, change_row, with_rows};
ghost use Rattle.rules.specs.Entries.{mark_hint, drop_mtu};
ghost use Rattle.rules.specs.Lookups.{rewrite};
ghost use Rattle.rules.specs.Memory.{row_of, source_bytes, view_rows};
ghost use Rattle.rules.specs.Lent.{Small};
ghost use Rattle.rules.specs.Layout.{byte_size, head_size, number_size, row_size, source_in_row};
ghost use Rattle.memory.specs.Edits.{stamped_as, with_weight};

use crate::codes::{HINT, NO_MTU};
use raw::layout;
use raw::layout::{HEAD, ROW};
use std::marker::Model;

// A row, read where it stands.
#[derive(Drop)]
pub struct Row<'a> {
    bytes: &'a [u8],
}

impl<'a> Model for Row<'a> {
    ghost use Rattle.std.specs.Prelude.{◌≡◌, length};
    ghost use Rattle.rules.specs.Records.{Row as RowSeen};
    ghost use Rattle.rules.specs.Memory.{row_of};
    ghost use Rattle.rules.specs.Layout.{row_size};

    ghost Value = { RowSeen };

    ghost view = { λ r. row_of r.bytes.now };

    ghost invariant = { λ r. length r.bytes.now ≡ row_size };
}

// Row i of n.
pub fn row_at(state: &[u8], n: usize, i: usize) -> Row<'_>
    requires { (i < n) × (head_size + n * row_size ≤ length state.now) }
    ensures { result ≡ row_at i (view_rows n state.now).rows }
{
    let at = HEAD + i * ROW;
    Row {
        bytes: &state[at..at + ROW],
    }
}

impl<'a> Row<'a> {
    // The row's bytes, for what is compared or copied where it stands.
    pub fn bytes(&self) -> &'a [u8]
        ensures row { row_of result.now ≡ self.now }
        ensures size { length result.now ≡ row_size }
    {
        self.bytes
    }

    #[tactic(auto, using(crate::proofs::Fields::path_len_is))]
    pub fn path_len(&self) -> u8
        ensures { result ≡ self.now.entry.path.len }
    {
        raw::numbers::read_u8(self.bytes, layout::ENTRY)
    }

    #[tactic(auto, using(crate::proofs::Fields::created_at_is))]
    pub fn created_at(&self) -> u64
        ensures { result ≡ self.now.entry.created_at }
    {
        raw::numbers::read_u64(self.bytes, layout::CREATED_AT)
    }

    #[tactic(auto, using(crate::proofs::Fields::last_used_is))]
    pub fn last_used(&self) -> u64
        ensures { result ≡ self.now.entry.last_used }
    {
        raw::numbers::read_u64(self.bytes, layout::LAST_USED)
    }

    #[tactic(auto, using(crate::proofs::Fields::expires_at_is))]
    pub fn expires_at(&self) -> u64
        ensures { result ≡ self.now.entry.expires_at }
    {
        raw::numbers::read_u64(self.bytes, layout::EXPIRES_AT)
    }

    #[tactic(auto, using(crate::proofs::Fields::mtu_mark_is))]
    pub fn mtu_mark(&self) -> u8
        ensures { result ≡ self.now.entry.mtu_mark }
    {
        raw::numbers::read_u8(self.bytes, layout::MTU_MARK)
    }

    #[tactic(auto, using(crate::proofs::Fields::mtu_is))]
    pub fn mtu(&self) -> u16
        ensures { result ≡ self.now.entry.mtu }
    {
        raw::numbers::read_u16(self.bytes, layout::MTU)
    }

    #[tactic(auto, using(crate::proofs::Fields::source_is))]
    pub fn source(&self) -> u8
        ensures { result ≡ self.now.entry.source }
    {
        raw::numbers::read_u8(self.bytes, layout::SOURCE)
    }

    #[tactic(auto, using(crate::proofs::Fields::verified_until_is))]
    pub fn verified_until(&self) -> u64
        ensures { result ≡ self.now.entry.verified_until }
    {
        raw::numbers::read_u64(self.bytes, layout::VERIFIED_UNTIL)
    }

    #[tactic(auto, using(crate::proofs::Fields::place_is))]
    pub fn place(&self) -> u8
        ensures { result ≡ self.now.place }
    {
        raw::numbers::read_u8(self.bytes, layout::PLACE)
    }

    #[tactic(auto, using(crate::proofs::Fields::stamp_first_is))]
    pub fn stamp_first(&self) -> u64
        ensures { result ≡ self.now.stamp_first }
    {
        raw::numbers::read_u64(self.bytes, layout::STAMP_FIRST)
    }

    #[tactic(auto, using(crate::proofs::Fields::stamp_seq_is))]
    pub fn stamp_seq(&self) -> u64
        ensures { result ≡ self.now.stamp_seq }
    {
        raw::numbers::read_u64(self.bytes, layout::STAMP_SEQ)
    }

    #[tactic(auto, using(crate::proofs::Fields::weight_is))]
    pub fn weight(&self) -> u8
        ensures { result ≡ self.now.weight }
    {
        raw::numbers::read_u8(self.bytes, layout::WEIGHT)
    }
}

// The rows that are still to come, first to last.
#[derive(Drop)]
pub struct Rows<'a> {
    bytes: &'a [u8],
    left: usize,
}

impl<'a> Model for Rows<'a> {
    ghost use Rattle.std.specs.Prelude.{◌*◌, ◌≤◌, List, length};
    ghost use Rattle.rules.specs.Records.{Row as RowSeen};
    ghost use Rattle.rules.specs.Memory.{rows_of};
    ghost use Rattle.rules.specs.Layout.{row_size};

    ghost Value = { List RowSeen };

    ghost view = { λ r. rows_of r.left r.bytes.now };

    ghost invariant = { λ r. r.left * row_size ≤ length r.bytes.now };
}

impl<'a> Rows<'a> {
    // The first n rows of a memory.
    pub fn of(state: &'a [u8], n: usize) -> Rows<'a>
        requires { head_size + n * row_size ≤ length state.now }
        ensures rows { result ≡ (view_rows n state.now).rows }
        ensures len { length result ≡ n }
    {
        Rows {
            bytes: &state[HEAD..],
            left: n,
        }
    }
}

impl<'a> Iterator for Rows<'a> {
    type Item = Row<'a>;

    ghost next_gives = { YieldsFirst (λ s. s) };

    ghost remaining = { item_count (λ s. s) };

    fn next(&mut self) -> Option<Row<'a>> {
        if self.left == 0 {
            return None;
        }
        let (bytes, others) = self.bytes.split_at(ROW);
        self.bytes = others;
        self.left -= 1;
        Some(Row { bytes })
    }
}

// Source and verified_until of the row whose first byte is at `at`.
#[tactic(auto, using(crate::proofs::StoreRuns::two_from, rules::proofs::MemoryLaws::length_le))]
pub fn write_source(s: &mut [u8], at: usize, source: u8, until: u64)
    requires { at + row_size ≤ length s.old }
    ensures s_after { s.new ≡ sets s.old (at + source_in_row) (source_bytes (with_source source until (empty_entry 0))) }
    ensures small { Small byte_size source × Small number_size until }
{
    raw::numbers::write_u8(s, at + layout::SOURCE, source);
    raw::numbers::write_u64(s, at + layout::VERIFIED_UNTIL, until);
}

// last_used and expires_at, as a refresh sets them.
#[tactic(auto, using(crate::proofs::Fields::times_store))]
pub fn set_times(state: &mut [u8], n: usize, i: usize, used: u64, expires: u64)
    requires { (i < n) × (head_size + n * row_size ≤ length state.old) }
    ensures { view_rows n state.new ≡ rewrite (with_times used expires) i (view_rows n state.old) }
{
    raw::numbers::write_u64(state, HEAD + i * ROW + layout::LAST_USED, used);
    raw::numbers::write_u64(state, HEAD + i * ROW + layout::EXPIRES_AT, expires);
}

// The entry's source and verified_until.
#[tactic(auto, using(crate::proofs::Fields::source_store))]
pub fn set_source(state: &mut [u8], n: usize, i: usize, source: u8, until: u64)
    requires { (i < n) × (head_size + n * row_size ≤ length state.old) }
    ensures { view_rows n state.new ≡ rewrite (with_source source until) i (view_rows n state.old) }
{
    write_source(state, HEAD + i * ROW, source, until);
}

// The entry becomes a hint.
#[tactic(auto, unfolding(rules::specs::Entries::mark_hint))]
pub fn mark_hint(state: &mut [u8], n: usize, i: usize)
    requires { (i < n) × (head_size + n * row_size ≤ length state.old) }
    ensures { view_rows n state.new ≡ rewrite mark_hint i (view_rows n state.old) }
{
    set_source(state, n, i, HINT, 0);
}

// The entry's MTU, and the mark that it has one.
#[tactic(auto, using(crate::proofs::Fields::mtu_store))]
pub fn set_mtu(state: &mut [u8], n: usize, i: usize, mark: u8, mtu: u16)
    requires { (i < n) × (head_size + n * row_size ≤ length state.old) }
    ensures { view_rows n state.new ≡ rewrite (with_mtu mark mtu) i (view_rows n state.old) }
{
    raw::numbers::write_u8(state, HEAD + i * ROW + layout::MTU_MARK, mark);
    raw::numbers::write_u16(state, HEAD + i * ROW + layout::MTU, mtu);
}

// The entry's MTU goes.
#[tactic(auto, unfolding(rules::specs::Entries::drop_mtu))]
pub fn drop_mtu(state: &mut [u8], n: usize, i: usize)
    requires { (i < n) × (head_size + n * row_size ≤ length state.old) }
    ensures { view_rows n state.new ≡ rewrite drop_mtu i (view_rows n state.old) }
{
    set_mtu(state, n, i, NO_MTU, 0);
}

// The row's place and stamp.
pub fn set_stamp(state: &mut [u8], n: usize, i: usize, place: u8, first: u64, seq: u64)
    requires { (i < n) × (head_size + n * row_size ≤ length state.old) }
    ensures { view_rows n state.new ≡ with_rows (change_row (stamped_as place first seq) i (view_rows n state.old).rows) (view_rows n state.old) }
{
    raw::numbers::write_u8(state, HEAD + i * ROW + layout::PLACE, place);
    raw::numbers::write_u64(state, HEAD + i * ROW + layout::STAMP_FIRST, first);
    raw::numbers::write_u64(state, HEAD + i * ROW + layout::STAMP_SEQ, seq);
}

pub fn set_weight(state: &mut [u8], n: usize, i: usize, weight: u8)
    requires { (i < n) × (head_size + n * row_size ≤ length state.old) }
    ensures { view_rows n state.new ≡ with_rows (change_row (with_weight weight) i (view_rows n state.old).rows) (view_rows n state.old) }
{
    raw::numbers::write_u8(state, HEAD + i * ROW + layout::WEIGHT, weight);
}
