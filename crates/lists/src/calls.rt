// The calls on a memory. A path of `len` elements stands at ROOT; one that is stated starts at the key.
use crate::line::Call;
use lookups::{demote, get, touch};
use placement::calls::{insert, insert_funded, insert_stated, insert_with_ttl};
use replies::answer::{reply, touch_reply};
use replies::part::part_reply;
use types::coord::{CoordEntry, Path};
use types::node_addr::{ADDRESS_BYTES, NodeAddr};
use types::reply::Reply;
use verification::calls::{insert_verified, insert_verified_with_path_mtu};

const ROOT: u64 = 5000;

// Addresses differ in their last two bytes.
fn address(n: u64) -> NodeAddr {
    let mut bytes = [0; ADDRESS_BYTES];
    bytes[ADDRESS_BYTES - 2] = (n / 256 % 256) as u8;
    bytes[ADDRESS_BYTES - 1] = (n % 256) as u8;
    NodeAddr(bytes)
}

fn with_element(path: Path, n: u64) -> Path {
    let element = CoordEntry {
        node_addr: address(n),
        sequence: 0,
        timestamp: 0,
    };
    path.append(element).unwrap_or(path)
}

// From this address on to the root.
fn path(first: u64, len: u64) -> Path {
    let mut path = with_element(Path::empty(), first);
    for _ in 1..len {
        path = with_element(path, ROOT);
    }
    path
}

// Found where the part has an element.
fn get_reply(memory: &[u8], key: NodeAddr, time: u64) -> Reply {
    let mut number = 9;
    let part = get::get(memory, key, time, &mut number);
    if number == 0 {
        part_reply(part.len())
    } else {
        Reply {
            refusal: number,
            values: [0; 5],
        }
    }
}

impl Call {
    pub fn on(self, memory: &mut [u8], key: u64) -> Reply {
        let addr = address(key);
        match self {
            Call::Fresh { ttl } => reply(state::fresh::fresh(memory, key, ttl)),
            Call::Insert { len, time } => reply(insert(memory, addr, path(ROOT, len), time)),
            Call::InsertWithTtl { len, time, ttl } => {
                reply(insert_with_ttl(memory, addr, path(ROOT, len), time, ttl))
            }
            Call::InsertFunded { len, time, funding } => {
                reply(insert_funded(memory, addr, path(ROOT, len), time, funding))
            }
            Call::InsertStated { len, time, funding } => {
                reply(insert_stated(memory, addr, path(key, len), time, funding))
            }
            Call::InsertVerified { len, time } => {
                reply(insert_verified(memory, addr, path(ROOT, len), time))
            }
            Call::InsertVerifiedWithPathMtu { len, time, mtu } => {
                let path = path(ROOT, len);
                reply(insert_verified_with_path_mtu(memory, addr, path, time, mtu))
            }
            Call::Get { time } => get_reply(memory, addr, time),
            Call::Touch { time } => touch_reply(touch::touch(memory, addr, time)),
            Call::Demote => reply(demote::demote(memory, addr)),
            Call::Clear => reply(sweeps::clear(memory)),
        }
    }
}
