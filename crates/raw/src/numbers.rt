// Little-endian numbers at an offset. Each compiles to one load or one store.
ghost use Rattle.std.specs.Prelude.{◌≡◌, ◌+◌, ◌≤◌, ◌<◌, length};
ghost use Rattle.std.proofs.lemmas.List.Edits.{sets};
ghost use Rattle.rules.specs.Memory.{cut, le_number, le_bytes};

#[tactic(auto, using(crate::proofs::NumberLaws::word_number))]
pub fn read_u64(s: &[u8], at: usize) -> u64
    requires { at + 8 ≤ length s.now }
    ensures { result ≡ le_number (cut at 8 s.now) }
{
    u64::from_le_bytes(s[at..at + 8].try_into().unwrap())
}

#[tactic(auto, using(crate::proofs::NumberLaws::word_bytes, crate::proofs::StoreLaws::part_stored))]
pub fn write_u64(s: &mut [u8], at: usize, v: u64)
    requires { at + 8 ≤ length s.old }
    ensures { s.new ≡ sets s.old at (le_bytes 8 v) }
{
    s[at..at + 8].copy_from_slice(&v.to_le_bytes());
}

#[tactic(auto, using(crate::proofs::NumberLaws::pair_number))]
pub fn read_u16(s: &[u8], at: usize) -> u16
    requires { at + 2 ≤ length s.now }
    ensures { result ≡ le_number (cut at 2 s.now) }
{
    u16::from_le_bytes(s[at..at + 2].try_into().unwrap())
}

#[tactic(auto, using(crate::proofs::NumberLaws::pair_bytes, crate::proofs::StoreLaws::part_stored))]
pub fn write_u16(s: &mut [u8], at: usize, v: u16)
    requires { at + 2 ≤ length s.old }
    ensures { s.new ≡ sets s.old at (le_bytes 2 v) }
{
    s[at..at + 2].copy_from_slice(&v.to_le_bytes());
}

#[tactic(auto, using(crate::proofs::NumberLaws::byte_number))]
pub fn read_u8(s: &[u8], at: usize) -> u8
    requires { at + 1 ≤ length s.now }
    ensures { result ≡ le_number (cut at 1 s.now) }
{
    s[at]
}

#[tactic(auto, using(crate::proofs::NumberLaws::byte_store))]
pub fn write_u8(s: &mut [u8], at: usize, v: u8)
    requires { at + 1 ≤ length s.old }
    ensures { s.new ≡ sets s.old at (le_bytes 1 v) }
{
    s[at] = v;
}
