// Rows move, one byte after another, of which the compiler makes wide copies; and bytes become zero. With `copy_within` or
// `copy_from_slice` in place of the loops the archive of the command stream would ask its surroundings for `memmove`.
ghost use Rattle.std.specs.Prelude.{◌≡◌, ◌++◌, ◌+◌, ◌-◌, ◌≤◌, ◌<◌, length, take, drop, replicate};
ghost use Rattle.std.proofs.Math.Seq.{slice};
ghost use Rattle.std.proofs.lemmas.List.Edits.{sets};
ghost use Rattle.rules.specs.Layout.{row_size};

use crate::layout::ROW;

// The bytes from `from` up to `to` move up by a row; those that they leave behind stay.
#[tactic(auto, using(crate::proofs::MoveLaws::up_start, crate::proofs::MoveLaws::up_turn))]
pub fn shift_up(s: &mut [u8], from: usize, to: usize)
    requires { (from ≤ to) × (to + row_size ≤ length s.old) }
    ensures { s.new ≡ take (from + row_size) s.old ++ (slice from to s.old ++ drop (to + row_size) s.old) }
{
    for i in (from..to).rev() {
        s[i + ROW] = s[i];
    }
}

// The bytes from a row past `at` up to `end` move down by a row.
#[tactic(auto, using(crate::proofs::MoveLaws::down_start, crate::proofs::MoveLaws::down_step))]
pub fn shift_down(s: &mut [u8], at: usize, end: usize)
    requires { (at + row_size ≤ end) × (end ≤ length s.old) }
    ensures { s.new ≡ take at s.old ++ (slice (at + row_size) end s.old ++ drop (end - row_size) s.old) }
{
    for i in at..end - ROW {
        s[i] = s[i + ROW];
    }
}

// The bytes from `from` up to `to` become zero.
#[tactic(auto, using(crate::proofs::StoreLaws::part_stored, rules::proofs::MemoryLaws::length_cut))]
pub fn fill_zero(s: &mut [u8], from: usize, to: usize)
    requires { (from ≤ to) × (to ≤ length s.old) }
    ensures { s.new ≡ sets s.old from (replicate (to - from) 0) }
{
    s[from..to].fill(0);
}
