// The calls, on keys of the states that `states` makes, at time 10.
use lookups::{demote, get, path_mtu, remove, touch};
use replies::answer::{reply, touch_reply};
use types::node_addr::{ADDRESS_BYTES, NodeAddr};
use types::reply::Reply;

const TIME: u64 = 10;

// A call, on the key that ends in a byte where it names one.
#[derive(Clone, Copy)]
pub enum Call {
    Get(u8),
    Touch(u8),
    GetAndTouch(u8),
    Remove(u8),
    Demote(u8),
    ClearPathMtu(u8),
    PurgeExpired,
    Clear,
    InvalidateViaNode(u8),
    InvalidateOtherRoots(u8),
    Stats(Statistic),
    NextExpiry,
    // For so many entries.
    Fresh(u64),
}

#[derive(Clone, Copy)]
pub enum Statistic {
    Entries,
    MaxEntries,
    Expired,
    AvgAge,
}

// The calls that need a sound state. In the output a call is its place here, and the first fresh is the next.
pub const CALLS: [Call; 21] = [
    Call::Get(1),
    Call::Get(2),
    Call::Get(4),
    Call::Touch(1),
    Call::Touch(3),
    Call::GetAndTouch(2),
    Call::GetAndTouch(3),
    Call::Remove(2),
    Call::Remove(4),
    Call::Demote(1),
    Call::Demote(2),
    Call::ClearPathMtu(1),
    Call::PurgeExpired,
    Call::Clear,
    Call::InvalidateViaNode(9),
    Call::InvalidateOtherRoots(9),
    Call::Stats(Statistic::Entries),
    Call::Stats(Statistic::MaxEntries),
    Call::Stats(Statistic::Expired),
    Call::Stats(Statistic::AvgAge),
    Call::NextExpiry,
];

// Fits 3 rows.
pub const FRESH_2: Call = Call::Fresh(2);

// Does not.
pub const FRESH_3: Call = Call::Fresh(3);

#[derive(Clone, Copy, PartialEq, Eq)]
pub struct Said {
    pub refusal: u8,
    pub value: u64,
}

// Addresses differ in their last byte.
pub fn address(last: u8) -> NodeAddr {
    let mut bytes = [17; ADDRESS_BYTES];
    bytes[ADDRESS_BYTES - 1] = last;
    NodeAddr(bytes)
}

// A refusal with the first value of a reply, and with the second.
fn first(reply: Reply) -> Said {
    Said {
        refusal: reply.refusal,
        value: reply.values[0],
    }
}

fn second(reply: Reply) -> Said {
    Said {
        refusal: reply.refusal,
        value: reply.values[1],
    }
}

fn one_statistic(reply: Reply, which: Statistic) -> Said {
    let [entries, max_entries, expired, avg_age, _] = reply.values;
    let value = match which {
        Statistic::Entries => entries,
        Statistic::MaxEntries => max_entries,
        Statistic::Expired => expired,
        Statistic::AvgAge => avg_age,
    };
    Said {
        refusal: reply.refusal,
        value,
    }
}

// How many bytes are handed back.
fn got(memory: &[u8], key: u8) -> Said {
    let mut refusal = 9;
    let part = get::get(memory, address(key), TIME, &mut refusal);
    let value = part.len() as u64;
    Said { refusal, value }
}

fn got_and_touched(memory: &mut [u8], key: u8) -> Said {
    let mut refusal = 9;
    let part = touch::get_and_touch(memory, address(key), TIME, &mut refusal);
    let value = part.len() as u64;
    Said { refusal, value }
}

// When the entry would have expired.
fn removed(memory: &mut [u8], key: u8) -> Said {
    let expiry = remove::remove(memory, address(key)).map(|entry| entry.map(|e| e.expires_at));
    second(reply(expiry))
}

impl Call {
    pub fn ask(self, memory: &mut [u8]) -> Said {
        match self {
            Call::Get(key) => got(memory, key),
            Call::Touch(key) => second(touch_reply(touch::touch(memory, address(key), TIME))),
            Call::GetAndTouch(key) => got_and_touched(memory, key),
            Call::Remove(key) => removed(memory, key),
            Call::Demote(key) => first(reply(demote::demote(memory, address(key)))),
            Call::ClearPathMtu(key) => {
                first(reply(path_mtu::clear_path_mtu(memory, address(key))))
            }
            Call::PurgeExpired => first(reply(sweeps::purge_expired(memory, TIME))),
            Call::Clear => first(reply(sweeps::clear(memory))),
            Call::InvalidateViaNode(node) => {
                first(reply(sweeps::invalidate_via_node(memory, address(node))))
            }
            Call::InvalidateOtherRoots(root) => {
                first(reply(sweeps::invalidate_other_roots(memory, address(root))))
            }
            Call::Stats(which) => one_statistic(reply(statistics::stats(memory, TIME)), which),
            Call::NextExpiry => second(reply(statistics::next_expiry(memory))),
            Call::Fresh(max) => first(reply(state::fresh::fresh(memory, max, 300))),
        }
    }
}
