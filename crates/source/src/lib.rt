// Where an allocator that grows has its memory from.
#![tactic(auto)]

ghost use Rattle.std.specs.Prelude.{◌≡◌, ℕ, Result};
ghost use Rattle.source.specs.Blocks.{Source, Lawful};
ghost use Rattle.source.specs.Answers.{Take, Give, Load, Store};
ghost use Rattle.source.specs.declared.fault.SourceFault.{SourceFault as Refusal};

mod fault;
mod request;

pub use fault::SourceFault;
pub use request::{Outcome, Request};

// Blocks of memory, taken and given back in any order. The rules leave three things open: the address of a block, its bytes at first, and whether a
// request is refused.
pub trait BlockSource {
    // What the source stands for.
    ghost state: { Self → Source };

    // Every value of the type keeps the rules of sources: what a call needs to know of its source stands in the source's own type.
    ghost lawful: { (s : Self) → Lawful (state s).blocks };

    // What is true of this source beyond the rules of all: its answers to requests, and what else a block given back and a store leave or change.
    ghost chooses: { Self → ℕ → Result ℕ Refusal → Self → Type 0 };

    ghost gives: { Self → ℕ → Result (Unit {0}) Refusal → Self → Type 0 };

    ghost stores: { Self → ℕ → ℕ → Result (Unit {0}) Refusal → Self → Type 0 };

    // Takes a block of that many bytes, and answers its address.
    fn take(&mut self, size: usize) -> Result<usize, SourceFault>
        ensures own { chooses self.old size result self.new }
        ensures rule { Take (state self.old) size result (state self.new) };

    // Gives back the block at that address.
    fn give(&mut self, base: usize) -> Result<(), SourceFault>
        ensures own { gives self.old base result self.new }
        ensures rule { Give (state self.old) base result (state self.new) };

    fn load(&self, at: usize) -> Result<u8, SourceFault>
        ensures { Load (state self.now) at result };

    fn store(&mut self, at: usize, byte: u8) -> Result<(), SourceFault>
        ensures own { stores self.old at byte result self.new }
        ensures rule { Store (state self.old) at byte result (state self.new) };
}
