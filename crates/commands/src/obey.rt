// Calls made on a sound state, and their replies.
ghost use Rattle.std.specs.Prelude.{◌≡◌, true};
ghost use Rattle.rules.specs.Sound.{sound};
ghost use Rattle.rules.specs.Memory.{capacity, view};
ghost use Rattle.commands.specs.Reading.{call_named, write_named};
ghost use Rattle.commands.specs.After.{Does};

use crate::call::{Call, Write};
use replies::answer::{Told, reply, touch_reply};
use replies::part::part_reply;
use types::coord::Path;
use types::reply::Reply;

// A call that takes a path.
#[tactic(auto, unfolding(crate::specs::Reading::write_named))]
pub(crate) fn write(state: &mut [u8], path: Path, write: Write) -> Reply
    requires { sound (capacity state.old) (view state.old) ≡ true }
    ensures { Does state.old (write_named write path) result state.new }
{
    match write {
        Write::Insert { key, time } => {
            reply(placement::calls::insert_unchecked(state, key, path, time))
        }
        Write::InsertWithTtl { key, time, ttl } => reply(
            placement::calls::insert_with_ttl_unchecked(state, key, path, time, ttl),
        ),
        Write::InsertFunded { key, time, funding } => reply(
            placement::calls::insert_funded_unchecked(state, key, path, time, funding),
        ),
        Write::InsertStated { key, time, funding } => reply(
            placement::calls::insert_stated_unchecked(state, key, path, time, funding),
        ),
        Write::InsertVerified { key, time } => reply(verification::calls::insert_verified_unchecked(
            state, key, path, time,
        )),
        Write::InsertVerifiedWithPathMtu { key, time, mtu } => reply(
            verification::calls::insert_verified_with_path_mtu_unchecked(
                state, key, path, time, mtu,
            ),
        ),
    }
}

// A call that takes none. It is not laid into its caller, which the compiler then sees through: a copy less of what the sender has.
#[inline(never)]
#[tactic(auto, using(lookups::proofs::PartReply::got_reply), unfolding(crate::specs::Reading::call_named))]
pub(crate) fn obey(state: &mut [u8], call: Call) -> Reply
    requires { sound (capacity state.old) (view state.old) ≡ true }
    ensures { Does state.old (call_named call) result state.new }
{
    match call {
        Call::Get { key, time } => {
            part_reply(lookups::get::get_unchecked(state, key, time).len())
        }
        Call::GetAndTouch { key, time } => {
            touch_reply(Ok(lookups::touch::touch_unchecked(state, key, time)))
        }
        Call::Remove { key } => lookups::remove::remove_unchecked(state, key).reply(),
        Call::Demote { key } => reply(lookups::demote::demote_unchecked(state, key)),
        Call::ClearPathMtu { key } => {
            lookups::path_mtu::clear_path_mtu_unchecked(state, key);
            ().reply()
        }
        Call::PurgeExpired { time } => sweeps::purge_expired_unchecked(state, time).reply(),
        Call::Clear => {
            sweeps::clear_unchecked(state);
            ().reply()
        }
        Call::InvalidateViaNode { addr } => {
            sweeps::invalidate_via_node_unchecked(state, addr).reply()
        }
        Call::InvalidateOtherRoots { addr } => {
            sweeps::invalidate_other_roots_unchecked(state, addr).reply()
        }
        Call::Stats { time } => statistics::stats_unchecked(state, time).reply(),
        Call::NextExpiry => statistics::next_expiry_unchecked(state).reply(),
    }
}
