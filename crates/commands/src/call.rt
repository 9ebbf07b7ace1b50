// What a command says, by value.
use types::coord::CoordEntry;
use types::node_addr::NodeAddr;
use types::placed::Funding;

#[derive(Clone, Copy)]
pub enum Command {
    // Fresh limits.
    Fresh { max: u64, ttl: u64 },
    // An element onto the pending path.
    Element(CoordEntry),
    Write(Write),
    Call(Call),
}

// A call that takes the pending path.
#[derive(Clone, Copy)]
pub enum Write {
    Insert {
        key: NodeAddr,
        time: u64,
    },
    InsertWithTtl {
        key: NodeAddr,
        time: u64,
        ttl: u64,
    },
    InsertFunded {
        key: NodeAddr,
        time: u64,
        funding: Funding,
    },
    InsertStated {
        key: NodeAddr,
        time: u64,
        funding: Funding,
    },
    InsertVerified {
        key: NodeAddr,
        time: u64,
    },
    InsertVerifiedWithPathMtu {
        key: NodeAddr,
        time: u64,
        mtu: u16,
    },
}

// A call that takes none.
#[derive(Clone, Copy)]
pub enum Call {
    Get { key: NodeAddr, time: u64 },
    GetAndTouch { key: NodeAddr, time: u64 },
    Remove { key: NodeAddr },
    Demote { key: NodeAddr },
    ClearPathMtu { key: NodeAddr },
    PurgeExpired { time: u64 },
    Clear,
    InvalidateViaNode { addr: NodeAddr },
    InvalidateOtherRoots { addr: NodeAddr },
    Stats { time: u64 },
    NextExpiry,
}
