// Why an arena is not opened.
ghost use Rattle.std.specs.Prelude.{◌≡◌, Some};
ghost use Rattle.arena.specs.Faults.{refusal, refusal_text, fault_of};

use source::SourceFault;
use std::error::Error;
use std::fmt;

#[derive(Clone, Copy, Debug, PartialEq, Eq)]
pub enum ArenaFault {
    AlreadyOpened = 9,
    // no block has so much room
    Capacity = 10,
    // the source was asked, and gave no block
    NoBlock = 12,
}

impl ArenaFault {
    // The number that users know the refusal by: each type of refusal has numbers of its own.
    pub fn number(self) -> u32
        ensures { result ≡ refusal self }
    {
        self as u32
    }
}

// By hand: a derive's Display has no contract that says what it prints.
impl fmt::Display for ArenaFault {
    ghost output = { λ f. Some (refusal_text f) };

    fn fmt<W: fmt::Write>(&self, f: &mut fmt::Formatter<W>) -> fmt::Result {
        let number = self.number();
        write!(f, "refused {number}")
    }
}

impl Error for ArenaFault {}

// What a refusal of the source is to who opens the arena.
impl From<SourceFault> for ArenaFault {
    ghost from_gives = { λ e f. f ≡ fault_of e };

    fn from(value: SourceFault) -> ArenaFault {
        match value {
            SourceFault::BlockSize => ArenaFault::Capacity,
            SourceFault::NoBlock => ArenaFault::NoBlock,
            SourceFault::Address => ArenaFault::NoBlock,
        }
    }
}
