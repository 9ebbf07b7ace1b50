// An entry of the cache as `remove` hands it back.
ghost use Rattle.std.specs.Prelude.{◌≡◌};
ghost use Rattle.types.specs.Values.{source_of};

use crate::coord::Path;

// Where a path came from.
#[derive(Clone, Copy)]
pub enum CoordSource {
    Verified,
    Hint,
}

#[derive(Clone, Copy)]
pub struct CacheEntry {
    pub path: Path,
    pub created_at: u64,
    pub last_used: u64,
    pub expires_at: u64,
    // The path MTU that a lookup found, if one is held.
    pub path_mtu: Option<u16>,
    pub source: CoordSource,
    pub verified_until: u64,
}

// A number that names no kind counts as a hint, so that no byte of a row makes a path verified but the right one.
impl From<u8> for CoordSource {
    ghost from_gives = { λ code source. source ≡ source_of code };

    #[tactic(auto, unfolding(crate::specs::Values::source_of))]
    fn from(code: u8) -> CoordSource {
        match code {
            0 => CoordSource::Verified,
            _ => CoordSource::Hint,
        }
    }
}
