// What a sender of commands has.
ghost use Rattle.std.specs.Prelude.{◌≡◌};
ghost use Rattle.types.specs.Senders.{new_sender, with_pending, emptied};

use crate::coord::Path;

#[derive(Clone, Copy)]
pub struct Sender {
    pub pending: Path,
}

impl Sender {
    // Before its first command.
    pub fn new() -> Sender
        ensures { result ≡ new_sender }
    {
        Sender {
            pending: Path::empty(),
        }
    }

    // The same sender with another pending path.
    pub fn with_pending(self, pending: Path) -> Sender
        ensures { result ≡ with_pending pending self }
    {
        Sender { pending: pending }
    }

    // The same sender with no pending path: what codes 10 to 15 leave.
    pub fn emptied(self) -> Sender
        ensures { result ≡ emptied self }
    {
        self.with_pending(Path::empty())
    }
}
