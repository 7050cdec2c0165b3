// Why a call of a vector is refused.
ghost use Rattle.std.specs.Prelude.{◌≡◌};
ghost use Rattle.ser_vec.specs.Faults.{refusal};
ghost use Rattle.ser_vec.specs.declared.fault.Fault.TheVariants.{Session};

#[derive(Clone, Copy, Debug, PartialEq, Eq)]
pub enum Fault {
    // the capacity left is less than what is wanted
    Full,
    // the session refused, or the vector's span is not live in it
    Session(session::Fault),
}

impl Fault {
    // The number that users know the refusal by: each type of refusal has numbers of its own. It is no
    // discriminant, since a variant has a payload.
    pub fn number(self) -> u32
        ensures { result ≡ refusal self }
    {
        match self {
            Fault::Full => 8,
            Fault::Session(f) => f.number(),
        }
    }
}

// A refusal of the session, passed on by `?`; each such pair of types has an impl of its own.
impl From<session::Fault> for Fault {
    ghost from_gives = { λ e r. r ≡ Session e };

    fn from(e: session::Fault) -> Fault {
        Fault::Session(e)
    }
}
