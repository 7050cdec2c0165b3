// Why a call of a source is refused.
ghost use Rattle.std.specs.Prelude.{◌≡◌};
ghost use Rattle.source.specs.Faults.{refusal, fault_of};

use allocator::{Cause, Fault};

#[derive(Clone, Copy, Debug, PartialEq, Eq)]
pub enum SourceFault {
    // no block has that size
    BlockSize = 10,
    // the source has no such block to give
    NoBlock = 12,
    // no block is out at that address
    Address = 13,
}

impl SourceFault {
    // The number that users know the refusal by: each type of refusal has numbers of its own.
    pub fn number(self) -> u32
        ensures { result ≡ refusal self }
    {
        self as u32
    }
}

// What a refusal of the source is to the allocator above it.
impl From<SourceFault> for Fault {
    ghost from_gives = { λ e f. f ≡ fault_of e };

    fn from(value: SourceFault) -> Fault {
        match value {
            SourceFault::BlockSize => Fault::DoesNotFit(Cause::BlockLimit),
            SourceFault::NoBlock => Fault::DoesNotFit(Cause::NoBlock),
            SourceFault::Address => Fault::Address,
        }
    }
}
