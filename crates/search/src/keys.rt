// Keys of the held rows, which ascend. A key is the first sixteen bytes of its row.
ghost use Rattle.std.specs.Prelude.{◌≡◌, true, ◌+◌, ◌*◌, ◌≤◌, ◌<◌, length};
ghost use Rattle.rules.specs.Sound.{ascends};
ghost use Rattle.rules.specs.Memory.{cut, view_rows};
ghost use Rattle.rules.specs.Layout.{head_size, row_size};
ghost use Rattle.search.specs.BigEndian.{NumberOf};
ghost use Rattle.search.specs.ByKey.{order_of, searched};

use memory::row::{Row, row_at};
use std::cmp::Ordering;
use types::node_addr::NodeAddr;

// Eight bytes as a number, the first highest.
fn be_u64(s: &[u8], at: usize) -> u64
    requires { at + 8 ≤ length s.now }
    ensures { NumberOf (cut at 8 s.now) result }
{
    u64::from_be_bytes(s[at..at + 8].try_into().unwrap())
}

// The row's key against an address: sixteen bytes against sixteen, as two numbers each, whose order is proved to be the bytes'.
fn order_to(row: &Row<'_>, key: NodeAddr) -> Ordering
    ensures { result ≡ order_of row.now.key key }
{
    let held = row.bytes();
    let bytes = key.0;
    let high = be_u64(held, 0);
    let key_high = be_u64(&bytes, 0);
    // faster here than `cmp`, which asks first whether the two are equal
    if high < key_high {
        return Ordering::Less;
    }
    if key_high < high {
        return Ordering::Greater;
    }
    let low = be_u64(held, 8);
    let key_low = be_u64(&bytes, 8);
    if low < key_low {
        return Ordering::Less;
    }
    if key_low < low {
        return Ordering::Greater;
    }
    Ordering::Equal
}

// How many of n rows stand between two keys so far apart, were keys spread evenly, as hashes are.
fn rows_in(n: usize, gap: u64) -> usize
    ensures { result < 65536 }
{
    let count = (n % 65536) as u64;
    (gap / 0x1_0000_0000 * count / 0x1_0000_0000) as usize
}

// A guess at the row of a key that begins with `key_high`, from what row i of n begins with. Nothing is promised of it.
fn guess_from(row: &Row<'_>, n: usize, i: usize, key_high: u64) -> usize {
    let held = be_u64(row.bytes(), 0);
    if held < key_high {
        return i.wrapping_add(rows_in(n, key_high - held));
    }
    let back = rows_in(n, held - key_high);
    if back < i { i - back } else { 0 }
}

// The next row to compare: the guess, brought within the bounds, or the middle once `trust` is used up.
fn probe(lo: usize, hi: usize, guess: usize, trust: usize) -> usize
    requires { lo < hi }
    ensures { (lo ≤ result) × (result < hi) }
{
    if trust == 0 {
        return lo + (hi - lo) / 2;
    }
    // two jumps that are foreseen, faster here than `clamp`
    if guess < lo {
        return lo;
    }
    if guess < hi { guess } else { hi - 1 }
}

// The row of a key: rows below `lo` stand before it, rows from `hi` on behind it. Where seven guesses don't end it, as with keys
// that are no hashes, halving does.
pub fn search(state: &[u8], n: usize, key: NodeAddr) -> Result<usize, usize>
    requires { (ascends (view_rows n state.now).rows ≡ true) × (head_size + n * row_size ≤ length state.now) }
    ensures { result ≡ searched key (view_rows n state.now).rows }
{
    let bytes = key.0;
    let key_high = be_u64(&bytes, 0);
    let mut guess = rows_in(n, key_high);
    // Halved each turn: 0 after seven.
    let mut trust = 64;
    let mut lo = 0;
    let mut hi = n;
    while lo < hi {
        let mid = probe(lo, hi, guess, trust);
        let row = row_at(state, n, mid);
        let order = order_to(&row, key);
        guess = guess_from(&row, n, mid, key_high);
        trust = trust / 2;
        match order {
            Ordering::Less => {
                lo = mid + 1;
            }
            Ordering::Equal => {
                return Ok(mid);
            }
            Ordering::Greater => {
                hi = mid;
            }
        }
    }
    Err(lo)
}
