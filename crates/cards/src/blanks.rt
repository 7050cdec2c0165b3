ghost use Rattle.std.specs.Prelude.{◌≡◌, ◌≤◌, [], IfOk, vec_capacity};

use crate::{Entry, MOST_ENTRIES};
use std::alloc::{AllocError, Global};

/// Room for the most entries that a card has, so that reading one never wants for memory.
#[derive(Drop)]
pub struct Blank {
    pub(crate) entries: Vec<Entry>,
    ghost empty: { entries.items ≡ [] },
    ghost room: { 4096 ≤ vec_capacity entries },
}

impl Blank {
    pub fn new(heap: Global) -> Result<Blank, AllocError>
        ensures { IfOk result (λ b. (b.entries.items ≡ []) × (4096 ≤ vec_capacity b.entries)) }
    {
        let entries = Vec::with_capacity(heap, MOST_ENTRIES)?;
        Ok(Blank { entries })
    }
}
