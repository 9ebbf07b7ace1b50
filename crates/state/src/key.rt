// The order of the rows' keys. A key is the first sixteen bytes of its row.
ghost use Rattle.std.specs.Prelude.{◌≡◌};
ghost use Rattle.types.specs.Addresses.{addr_before};

use memory::row::Row;
use raw::layout::ADDRESS;

// The row's key stands before the next row's: the first byte that differs decides.
#[tactic(auto, using(crate::proofs::KeyLaws::key_length, crate::proofs::KeyLaws::key_byte, types::proofs::PathLaws::before_stop, types::proofs::PathLaws::before_go, types::proofs::PathLaws::before_end), unfolding(types::specs::Addresses::addr_before))]
pub fn key_rises(row: &Row<'_>, next: &Row<'_>) -> bool
    ensures { result ≡ addr_before row.now.key next.now.key }
{
    let held = row.bytes();
    let behind = next.bytes();
    for at in 0..ADDRESS {
        let x = held[at];
        let y = behind[at];
        if x != y {
            return x < y;
        }
    }
    false
}
