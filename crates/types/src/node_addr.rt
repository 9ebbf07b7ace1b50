// A node's routing address. As in the original it is a type of its own, so that no other sixteen bytes pass for one.
pub const ADDRESS_BYTES: usize = 16;

#[derive(Clone, Copy, PartialEq, Eq)]
pub struct NodeAddr(pub [u8; ADDRESS_BYTES]);
