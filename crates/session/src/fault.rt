// Why a call of a session is refused.
ghost use Rattle.std.specs.Prelude.{◌≡◌, Some};
ghost use Rattle.session.specs.Faults.{refusal, refusal_text};
ghost use Rattle.session.specs.declared.fault.Fault.TheVariants.{Allocator};

use std::error::Error;
use std::fmt;

#[derive(Clone, Copy, Debug, PartialEq, Eq)]
pub enum Fault {
    // the grant is live, and a newer one is too
    NotNewest,
    NotLive,
    // 64 spans are live, or the last grant was given
    Full,
    // the offset is not below the span's size
    Outside,
    // the allocator refused
    Allocator(allocator::Fault),
}

impl Fault {
    // The number that users know the refusal by: each type of refusal has numbers of its own. It is no
    // discriminant, since a variant has a payload.
    pub fn number(self) -> u32
        ensures { result ≡ refusal self }
    {
        match self {
            Fault::NotNewest => 4,
            Fault::NotLive => 5,
            Fault::Full => 6,
            Fault::Outside => 7,
            Fault::Allocator(f) => f.number(),
        }
    }
}

// By hand: a derive's Display has no contract that says what it prints.
impl fmt::Display for Fault {
    ghost output = { λ f. Some (refusal_text f) };

    fn fmt<W: fmt::Write>(&self, f: &mut fmt::Formatter<W>) -> fmt::Result {
        let number = self.number();
        write!(f, "refused {number}")
    }
}

impl Error for Fault {}

// A refusal of the allocator, passed on by `?`; each such pair of types has an impl of its own.
impl From<allocator::Fault> for Fault {
    ghost from_gives = { λ e r. r ≡ Allocator e };

    fn from(e: allocator::Fault) -> Fault {
        Fault::Allocator(e)
    }
}
