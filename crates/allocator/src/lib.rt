// Scratch memory that is taken and given back last in, first out.
#![tactic(auto)]

ghost use Rattle.std.specs.Prelude.{◌≡◌, ℕ, Result};
ghost use Rattle.allocator.specs.Memory.{Memory, Lawful};
ghost use Rattle.allocator.specs.Answers.{Push, Pop, Load, Store};
ghost use Rattle.allocator.specs.Laws.{Served, Undoes};
ghost use Rattle.allocator.specs.Stats.{unused, counted, discounted, after_push, after_pop, max_error, min_capacity};
ghost use Rattle.allocator.specs.declared.fault.Fault.{Fault as AllocatorFault};

mod fault;
mod layout;

pub use fault::{Cause, Fault};
pub use layout::Layout;

// Scratch memory under the rules that all allocators keep. A call names no pointer but an address, and its bytes are loaded and stored one by one.
pub trait Allocator {
    // What the allocator stands for.
    ghost blocks: { Self → Memory };

    // Every value of the type keeps the rules of memory: what a call needs to know of its allocator stands in the allocator's own type.
    ghost lawful: { (a : Self) → Lawful (blocks a) };

    // What is true of this allocator's pushes, pops and stores beyond the rules of all: which block it took and what it asked of a source, or what it counted.
    ghost pushes: { Self → ℕ → ℕ → Result ℕ AllocatorFault → Self → Type 0 };

    ghost pops: { Self → ℕ → ℕ → Result (Unit {0}) AllocatorFault → Self → Type 0 };

    ghost stores: { Self → ℕ → ℕ → Result (Unit {0}) AllocatorFault → Self → Type 0 };

    // Allocates scratch space that fits the layout, and answers its address.
    fn push_alloc(&mut self, layout: Layout) -> Result<usize, Fault>
        ensures own { pushes self.old layout.size layout.align result self.new }
        ensures rule { Push (blocks self.old) layout.size layout.align result (blocks self.new) }
        ensures serves { Served (blocks self.old) layout.size layout.align result (blocks self.new) };

    // Gives back the scratch space at that address, and what was pushed on top of it.
    fn pop_alloc(&mut self, at: usize, layout: Layout) -> Result<(), Fault>
        ensures own { pops self.old at layout.size result self.new }
        ensures rule { Pop (blocks self.old) at result (blocks self.new) }
        ensures undoes { Undoes at (blocks self.old) result (blocks self.new) };

    fn load(&self, at: usize) -> Result<u8, Fault>
        ensures { Load (blocks self.now) at result };

    fn store(&mut self, at: usize, byte: u8) -> Result<(), Fault>
        ensures own { stores self.old at byte result self.new }
        ensures rule { Store (blocks self.old) at byte result (blocks self.new) };
}

// Statistics for the allocations that were accepted.
#[derive(Clone, Copy, Debug, PartialEq, Eq)]
pub struct AllocationStats {
    bytes_allocated: usize,
    allocations: usize,
    // the most bytes that were allocated at once
    pub max_bytes_allocated: usize,
    // the most allocations at once
    pub max_allocations: usize,
    pub max_alignment: usize,
}

impl AllocationStats {
    // The least capacity of an arena that serves the same calls. It may be too large, by the error below.
    pub fn min_arena_capacity(&self) -> usize
        ensures { result ≡ min_capacity self.now }
    {
        self.max_bytes_allocated
            .saturating_add(self.min_arena_capacity_max_error())
    }

    pub fn min_arena_capacity_max_error(&self) -> usize
        ensures { result ≡ max_error self.now }
    {
        self.max_allocations
            .saturating_mul(self.max_alignment.saturating_sub(1))
    }

    fn push(&mut self, layout: Layout)
        ensures { self.new ≡ counted self.old layout.size layout.align }
    {
        self.bytes_allocated = self.bytes_allocated.saturating_add(layout.size());
        self.allocations = self.allocations.saturating_add(1);
        self.max_bytes_allocated = self.bytes_allocated.max(self.max_bytes_allocated);
        self.max_allocations = self.allocations.max(self.max_allocations);
        self.max_alignment = self.max_alignment.max(layout.align());
    }

    fn pop(&mut self, layout: Layout)
        ensures { self.new ≡ discounted self.old layout.size }
    {
        self.bytes_allocated = self.bytes_allocated.saturating_sub(layout.size());
        self.allocations = self.allocations.saturating_sub(1);
    }
}

// A passthrough allocator that tracks usage.
#[derive(Drop)]
pub struct AllocationTracker<T> {
    inner: T,
    stats: AllocationStats,
}

impl<T> AllocationTracker<T> {
    pub fn new(inner: T) -> AllocationTracker<T>
        ensures inner { result.inner ≡ inner }
        ensures stats { result.stats ≡ unused }
    {
        AllocationTracker {
            inner,
            stats: AllocationStats {
                bytes_allocated: 0,
                allocations: 0,
                max_bytes_allocated: 0,
                max_allocations: 0,
                max_alignment: 1,
            },
        }
    }

    // The statistics so far, and the allocator inside.
    pub fn into_stats(self) -> (AllocationStats, T)
        ensures stats { result.0 ≡ self.stats }
        ensures inner { result.1 ≡ self.inner }
    {
        let AllocationTracker { inner, stats } = self;
        (stats, inner)
    }
}

impl<T: Allocator> Allocator for AllocationTracker<T> {
    ghost blocks = { λ t. T.Allocator.blocks t.inner };

    ghost lawful = { λ t. T.Allocator.lawful t.inner };

    ghost pushes = { λ t size align r t'. (T.Allocator.pushes t.inner size align r t'.inner) × (t'.stats ≡ after_push t.stats size align r) };

    ghost pops = { λ t at size r t'. (T.Allocator.pops t.inner at size r t'.inner) × (t'.stats ≡ after_pop t.stats size r) };

    ghost stores = { λ t at byte r t'. (T.Allocator.stores t.inner at byte r t'.inner) × (t'.stats ≡ t.stats) };

    fn push_alloc(&mut self, layout: Layout) -> Result<usize, Fault> {
        let at = self.inner.push_alloc(layout)?;
        self.stats.push(layout);
        Ok(at)
    }

    fn pop_alloc(&mut self, at: usize, layout: Layout) -> Result<(), Fault> {
        self.inner.pop_alloc(at, layout)?;
        self.stats.pop(layout);
        Ok(())
    }

    fn load(&self, at: usize) -> Result<u8, Fault> {
        self.inner.load(at)
    }

    fn store(&mut self, at: usize, byte: u8) -> Result<(), Fault> {
        self.inner.store(at, byte)
    }
}

impl<T> From<T> for AllocationTracker<T> {
    ghost from_gives = { λ inner r. (r.inner ≡ inner) × (r.stats ≡ unused) };

    fn from(value: T) -> AllocationTracker<T> {
        AllocationTracker::new(value)
    }
}
