// Why a call of an allocator is refused.
ghost use Rattle.std.specs.Prelude.{◌≡◌};
ghost use Rattle.allocator.specs.Faults.{refusal};

// Why a push does not fit.
#[derive(Clone, Copy, Debug, PartialEq, Eq)]
pub enum Cause {
    // the buffer is fixed, and has no further block
    FixedBuffer,
    // the arena has no block yet
    Unopened,
    // the block that the push wants is above the largest
    BlockLimit,
    // the block source was asked, and gave none
    NoBlock,
}

#[derive(Clone, Copy, Debug, PartialEq, Eq)]
pub enum Fault {
    Size,
    Alignment,
    DoesNotFit(Cause),
    Address,
}

impl Fault {
    // The number that users know the refusal by: each type of refusal has numbers of its own. It is no
    // discriminant, since a variant has a payload.
    pub fn number(self) -> u32
        ensures { result ≡ refusal self }
    {
        match self {
            Fault::Size => 1,
            Fault::Alignment => 2,
            Fault::DoesNotFit(_) => 3,
            Fault::Address => 13,
        }
    }
}
