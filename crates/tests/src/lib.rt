// Examples of the crates below, with expected values worked out from the rules.
#![tactic(auto)]

ghost use Rattle.std.specs.Prelude.{◌≡◌};

use allocator::{Allocator, Layout};
use sub_allocator::SubAllocator;

#[cfg(test)]
mod arenas;
#[cfg(test)]
mod buffers;
#[cfg(test)]
mod layouts;
#[cfg(test)]
mod regions;
#[cfg(test)]
mod run_cards;
#[cfg(test)]
mod sessions;
#[cfg(test)]
mod trackers;

// A buffer that is lent comes back with its bytes as they were where nothing was stored.
pub fn borrowed(buffer: &mut [u8], layout: Layout)
    ensures { buffer.new ≡ buffer.old }
{
    let mut memory = SubAllocator::new(buffer, 0);
    if let Ok(at) = memory.push_alloc(layout) {
        let _ = memory.pop_alloc(at, layout);
    }
}
