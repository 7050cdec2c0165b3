// An arena allocator: blocks of a source, kept for use after use.
#![tactic(auto)]

mod arena;
mod fault;
mod power;
mod record;
mod ring;

pub use arena::{Arena, ArenaHandle};
pub use fault::ArenaFault;
