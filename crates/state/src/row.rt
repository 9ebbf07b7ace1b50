// What is asked of a row by itself.
ghost use Rattle.std.specs.Prelude.{◌≡◌, max};
ghost use Rattle.types.specs.Paths.{addrs_per_entry};
ghost use Rattle.rules.specs.Sound.{row_sound};

use memory::codes::{HINT, PARKED, PROBATION, SOME_MTU, VERIFIED};
use memory::row::Row;
use types::coord::{ADDRS_PER_ENTRY, PLACES};

// The most elements of a path, and the most that a row weighs, as the bytes of a row have them.
const LONGEST: u8 = PLACES as u8;

const WEIGHT_LIMIT: u8 = LONGEST;

// A path weighs no less.
const LEAST: u8 = ADDRS_PER_ENTRY as u8;

fn path_weight(len: u8) -> u8
    ensures { result ≡ max addrs_per_entry len }
{
    len.max(LEAST)
}

// One expression with no branch, in the order of the rules; seq is the head's.
#[tactic(auto, unfolding(rules::specs::Sound::row_sound, rules::specs::Sound::legal, rules::specs::Sound::weighed, rules::specs::Sound::sourced, rules::specs::Rows::at_place, types::specs::Paths::path_weight))]
pub fn row_is_sound(row: &Row<'_>, seq: u64) -> bool
    ensures { result ≡ row_sound seq row.now }
{
    let place = row.place();
    let source = row.source();
    let mark = row.mtu_mark();
    let len = row.path_len();
    let weight = row.weight();
    let stamp = row.stamp_seq();
    let until = row.verified_until();
    let first = row.stamp_first();
    let least = path_weight(len);
    let legal = (place <= PROBATION)
        & ((source <= HINT) & ((mark <= SOME_MTU) & ((1 <= len) & (len <= LONGEST))));
    let weighed = (least <= weight) & (weight <= WEIGHT_LIMIT);
    let sourced = ((source == VERIFIED) | (until == 0))
        & (((place != PROBATION) | (source != VERIFIED))
            & ((place != PARKED) | ((source == VERIFIED) & (first == until))));
    legal & (weighed & ((stamp <= seq) & sourced))
}
