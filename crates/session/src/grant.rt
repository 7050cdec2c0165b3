// The right to a live span.
ghost use Rattle.std.specs.Prelude.{◌≡◌};

// It is no copy, and is moved into the span's pop: after an accepted pop there is no grant to name.
#[derive(Drop)]
pub struct Grant {
    pub(crate) number: u32,
}

impl Grant {
    pub fn number(&self) -> u32
        ensures { result ≡ self.now.number }
    {
        self.number
    }
}
