// The calls of an arena and of its handle.
ghost use Rattle.std.specs.Prelude.{◌≡◌, ℕ, ◌+◌, ◌*◌, ◌≤◌, true, false, IfOk, IfErr, nat_le};
ghost use Rattle.arena.specs.Meaning.{Loaded};
ghost use Rattle.allocator.specs.Memory.{fits, taken};
ghost use Rattle.arena.specs.Rings.{room, total, opened, newest_size, before, chain};
ghost use Rattle.arena.specs.Arenas.{blocks_of, unopened, shrunk, given_back, Consulted, Gave, Takes};
ghost use Rattle.allocator.specs.declared.fault.Fault.TheVariants.{Address};
ghost use Rattle.source.specs.Answers.{Store};
ghost use Rattle.arena.specs.Calls.{answered, Opens, opening, Extends, Pushes, pushing, putting, Put};
ghost use Rattle.arena.specs.Powers.{least_power_of, wanted};
ghost use Rattle.arena.specs.Views.{idle_of, handle_of, memory_at, handle-lawful};

use super::{Arena, ArenaHandle};
use crate::fault::ArenaFault;
use crate::power::least_power;
use crate::record::BlockRecord;
use crate::ring::Ring;
use allocator::{Allocator, Cause, Fault, Layout};
use source::{BlockSource, SourceFault};

// Gives the blocks back, the newest of them first.
fn give_back<S: BlockSource>(source: &mut S, records: &[BlockRecord])
    ensures own { Gave S.gives source.old (chain records.now) source.new }
    ensures state { S.state source.new ≡ given_back (S.state source.old) (chain records.now) }
{
    for record in records.iter().rev() {
        let _ = source.give(record.address);
    }
}

impl<S: BlockSource> Arena<S> {
    // The default capacity for arenas.
    pub const DEFAULT_CAPACITY: usize = 1024;

    // An arena that is not opened yet.
    pub fn new(source: S) -> Arena<S>
        ensures source { result.source ≡ source }
        ensures state { idle_of S.state result ≡ unopened (S.state source) }
    {
        Arena {
            source,
            ring: Ring::empty(),
            growths: 0,
        }
    }

    // Opens the arena with at least the requested capacity.
    pub fn with_capacity(&mut self, cap: usize) -> Result<(), ArenaFault>
        ensures opens { Opens (idle_of S.state self.old) cap result (idle_of S.state self.new) }
        ensures consulted { Consulted S.chooses (opening (blocks_of self.old.ring) cap) self.old.source (least_power_of (cap + 16)) (answered result (blocks_of self.new.ring)) self.new.source }
    {
        if self.ring.opened() {
            return Err(ArenaFault::AlreadyOpened);
        }
        if cap > 16777216 {
            return Err(ArenaFault::Capacity);
        }
        let size = least_power(cap + 16).ok_or(ArenaFault::Capacity)?;
        self.take(size)?;
        Ok(())
    }

    // Takes a block of that size, at least twice as large as the newest.
    fn take(&mut self, size: usize) -> Result<usize, SourceFault>
        requires some { 16 ≤ size }
        requires small { size ≤ 67108864 }
        requires doubles { 2 * newest_size (blocks_of self.old.ring) ≤ size }
        ensures takes { Takes (idle_of S.state self.old) size result (idle_of S.state self.new) }
        ensures own { S.chooses self.old.source size result self.new.source }
    {
        let at = self.source.take(size)?;
        // every block but the first is a growth
        self.growths += usize::from(self.ring.opened());
        self.ring.push_next(BlockRecord {
            address: at,
            size,
            next: 0,
        });
        Ok(at)
    }

    // Stores a byte of one of the source's blocks. A call of the arena's own, since its type speaks of the source.
    fn store(&mut self, at: usize, byte: u8) -> Result<(), SourceFault>
        ensures rule { Store (S.state self.old.source) at byte result (S.state self.new.source) }
        ensures own { S.stores self.old.source at byte result self.new.source }
        ensures ring { self.new.ring ≡ self.old.ring }
        ensures growths { self.new.growths ≡ self.old.growths }
    {
        self.source.store(at, byte)
    }

    // Gives back all blocks but the newest, and answers its usable length.
    pub fn shrink(&mut self) -> usize
        ensures answer { result ≡ room (blocks_of self.old.ring) }
        ensures state { idle_of S.state self.new ≡ shrunk (idle_of S.state self.old) }
        ensures gave { Gave S.gives self.old.source (before (blocks_of self.old.ring)) self.new.source }
    {
        let Some((&tail, older)) = self.ring.records().split_last() else {
            return 0;
        };
        give_back(&mut self.source, older);
        self.ring.keep_newest();
        tail.room()
    }

    // The usable length of the newest block.
    pub fn capacity(&self) -> usize
        ensures { result ≡ room (blocks_of self.now.ring) }
    {
        self.ring.tail().map_or(0, |tail| tail.room())
    }

    // How many blocks were granted after the first one, over the arena's life.
    pub fn growths(&self) -> usize
        ensures { result ≡ self.now.growths }
    {
        self.growths
    }

    // How many bytes the blocks have together.
    pub fn held(&self) -> usize
        ensures { result ≡ total (blocks_of self.now.ring) }
    {
        self.ring.total()
    }

    // Shrinks the arena, and acquires a handle to it. Nothing of its newest block is taken.
    pub fn acquire(self) -> ArenaHandle<S>
        ensures mark { result.used ≡ 0 }
        ensures state { handle_of S.state result ≡ shrunk (idle_of S.state self) }
        ensures gave { Gave S.gives self.source (before (blocks_of self.ring)) result.arena.source }
    {
        let mut arena = self;
        let _ = arena.shrink();
        ArenaHandle { arena, used: 0 }
    }

    // Gives every block back, and answers the source.
    pub fn close(self) -> S
        ensures state { S.state result ≡ given_back (S.state self.source) (blocks_of self.ring) }
        ensures gave { Gave S.gives self.source (blocks_of self.ring) result }
    {
        let Arena {
            mut source,
            ring,
            ..
        } = self;
        give_back(&mut source, ring.records());
        source
    }
}

impl<S: BlockSource> ArenaHandle<S> {
    // The idle arena again, with its blocks as they are.
    pub fn release(self) -> Arena<S>
        ensures source { result.source ≡ self.arena.source }
        ensures state { idle_of S.state result ≡ handle_of S.state self }
    {
        let ArenaHandle { arena, .. } = self;
        arena
    }

    pub fn growths(&self) -> usize
        ensures { result ≡ self.now.arena.growths }
    {
        self.arena.growths()
    }

    pub fn held(&self) -> usize
        ensures { result ≡ total (blocks_of self.now.arena.ring) }
    {
        self.arena.held()
    }

    // Refuses an address whose byte is not taken. A taken byte is one of the source's.
    fn require_taken(&self, at: usize) -> Result<(), Fault>
        ensures yes { IfOk result (λ _. (taken (memory_at S.state self.now) at ≡ true) × Loaded (S.state self.now.arena.source).blocks (memory_at S.state self.now) at) }
        ensures no { IfErr result (λ fault. (fault ≡ Address) × (taken (memory_at S.state self.now) at ≡ false)) }
    {
        if self.arena.ring.taken(self.used, at) {
            Ok(())
        } else {
            Err(Fault::Address)
        }
    }

    // Serves the push from a further block, at least twice as large as the newest.
    fn grow(&mut self, last: usize, layout: Layout) -> Result<usize, Fault>
        requires last { newest_size (blocks_of self.old.arena.ring) ≡ last }
        requires opened { opened (blocks_of self.old.arena.ring) ≡ true }
        ensures extends { Extends (handle_of S.state self.old) self.old.used layout.size layout.align result (handle_of S.state self.new) self.new.used }
        ensures consulted { Consulted S.chooses (nat_le (wanted last layout.size layout.align) 67108864) self.old.arena.source (wanted last layout.size layout.align) (answered result (blocks_of self.new.arena.ring)) self.new.arena.source }
    {
        let least = least_power(16 + layout.size() + layout.align()).ok_or(Fault::DoesNotFit(
            Cause::BlockLimit,
        ))?;
        let size = (2 * last).max(least);
        if size > 67108864 {
            return Err(Fault::DoesNotFit(Cause::BlockLimit));
        }
        let base = self.arena.take(size)? + 16;
        let pad = layout.align_offset(base);
        self.used = pad + layout.size();
        Ok(base + pad)
    }
}

impl<S: BlockSource> Allocator for ArenaHandle<S> {
    ghost blocks = { λ h. memory_at S.state h };

    ghost lawful = { λ h. handle-lawful S.BlockSource h };

    ghost pushes = { λ h size align r h'. Pushes (handle_of S.state h) (fits (memory_at S.state h) size align) size align r (handle_of S.state h') × Consulted S.chooses (pushing (blocks_of h.arena.ring) (fits (memory_at S.state h) size align) size align) h.arena.source (wanted (newest_size (blocks_of h.arena.ring)) size align) (answered r (blocks_of h'.arena.ring)) h'.arena.source };

    ghost pops = { λ h at size r h'. (handle_of S.state h' ≡ handle_of S.state h) × (h'.arena.source ≡ h.arena.source) };

    ghost stores = { λ h at byte r h'. (handle_of S.state h' ≡ putting (handle_of S.state h) (taken (memory_at S.state h) at) at byte) × Put S.stores (taken (memory_at S.state h) at) h.arena.source at byte h'.arena.source };

    fn push_alloc(&mut self, layout: Layout) -> Result<usize, Fault> {
        let tail = self
            .arena
            .ring
            .tail()
            .ok_or(Fault::DoesNotFit(Cause::Unopened))?;
        let top = tail.address + 16 + self.used;
        let pad = layout.align_offset(top);
        let wanted = pad + layout.size();
        if wanted <= tail.room() - self.used {
            self.used += wanted;
            return Ok(top + pad);
        }
        self.grow(tail.size, layout)
    }

    // Reduces the used space if the span is in the newest block.
    fn pop_alloc(&mut self, at: usize, _layout: Layout) -> Result<(), Fault> {
        self.require_taken(at)?;
        if let Some(tail) = self.arena.ring.tail() {
            if tail.covers(self.used, at) {
                self.used = at - (tail.address + 16);
            }
        }
        Ok(())
    }

    fn load(&self, at: usize) -> Result<u8, Fault> {
        self.require_taken(at)?;
        Ok(self.arena.source.load(at)?)
    }

    fn store(&mut self, at: usize, byte: u8) -> Result<(), Fault> {
        self.require_taken(at)?;
        self.arena.store(at, byte)?;
        Ok(())
    }
}
