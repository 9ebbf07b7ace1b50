// The operands of a hint, which its calls give.
ghost use Rattle.std.specs.Prelude.{◌≡◌, ◌≤◌};
ghost use Rattle.types.specs.Paths.{path_weight};
ghost use Rattle.rules.specs.Records.{weight_limit};
ghost use Rattle.filing.specs.Filings.{Writable};

use types::coord::Path;
use types::node_addr::NodeAddr;
use types::placed::Funding;

// A hint whose path can be written: 2 did not refuse it.
#[derive(Clone, Copy)]
pub struct Hint<'a> {
    pub key: NodeAddr,
    pub path: &'a Path,
    pub time: u64,
    pub ttl: u64,
    pub funding: Funding,
    pub stated: bool,
    ghost writable: { Writable path.now },
}

impl<'a> Hint<'a> {
    // What its path weighs, as a row holds it.
    #[tactic(auto, using(crate::proofs::NewKeys::light))]
    pub fn weight(&self) -> u8
        ensures { (result ≡ path_weight self.now.path.now) × (result ≤ weight_limit) }
    {
        self.path.weight() as u8
    }
}
