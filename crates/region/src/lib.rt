// A block source that cuts its blocks from a buffer, whose first byte has the address 4,096.
#![tactic(auto)]

ghost use Rattle.std.specs.Prelude.{◌≡◌, ℕ, ◌+◌, ◌<◌, ◌≤◌, true, false, length, vec_items, IfOk, IfErr};
ghost use Rattle.source.specs.Blocks.{untouched, within};
ghost use Rattle.source.specs.declared.fault.SourceFault.TheVariants.{Address};
ghost use Rattle.region.specs.Places.{chain, keeps, Lowest};
ghost use Rattle.region.specs.Regions.{usable, blocks, region, lawful-cuts, Cuts, stored_in};

use arrayvec::ArrayVec;
use source::{BlockSource, Outcome, Request, SourceFault};

mod slot;

pub use slot::Slot;

// The blocks stand in the slots, the oldest first.
#[derive(Drop)]
pub struct Region {
    bytes: Vec<u8>,
    slots: ArrayVec<Slot, 32>,
    requests: usize,
    last: Option<Request>,
    ghost apart: { keeps (usable (length bytes.items)) (chain slots.items) ≡ true },
}

impl Region {
    // Uses the first 67,108,864 bytes at most.
    pub fn new(bytes: Vec<u8>) -> Region
        ensures bytes { result.bytes ≡ bytes }
        ensures state { region result.bytes.items result.slots.items result.requests result.last ≡ untouched }
    {
        Region {
            bytes,
            slots: ArrayVec::new(),
            requests: 0,
            last: None,
        }
    }

    // The buffer, with the bytes as they are.
    pub fn into_bytes(self) -> Vec<u8>
        ensures { result ≡ self.bytes }
    {
        let Region { bytes, .. } = self;
        bytes
    }

    fn len(&self) -> usize
        ensures { result ≡ usable (length self.now.bytes.items) }
    {
        self.bytes.len().min(67108864)
    }

    // The lowest address for a block of that size, beside the others.
    fn lowest(&self, size: usize) -> Option<usize>
        ensures { Lowest (usable (length self.now.bytes.items)) (chain self.now.slots.items) size result }
    {
        let room = self.len().checked_sub(size)?;
        // No chain: its closures would have to bound the offsets again.
        for k in 0..room / 16 + 1 {
            let base = 4096 + 16 * k;
            let end = base + size;
            if !self.slots.iter().any(|slot| slot.overlaps(base, end)) {
                return Some(base);
            }
        }
        None
    }

    // Is the address in one of the blocks?
    fn outstanding(&self, at: usize) -> bool
        ensures answer { result ≡ within (blocks self.now.bytes.items self.now.slots.items) at }
        ensures bounds { result ≡ true → (4096 ≤ at) × (at < 4096 + length self.now.bytes.items) }
    {
        self.slots.iter().any(|slot| slot.contains(at))
    }

    // Where in the buffer the byte of a block's address is. Beside that of `SubAllocator`: there all bytes are one block.
    fn place(&self, at: usize) -> Result<usize, SourceFault>
        ensures found { IfOk result (λ i. (at ≡ 4096 + i) × (i < length self.now.bytes.items) × (within (blocks self.now.bytes.items self.now.slots.items) at ≡ true)) }
        ensures lost { IfErr result (λ fault. (fault ≡ Address) × (within (blocks self.now.bytes.items self.now.slots.items) at ≡ false)) }
    {
        if !self.outstanding(at) {
            return Err(SourceFault::Address);
        }
        Ok(at - 4096)
    }
}

impl BlockSource for Region {
    ghost state = { λ r. region r.bytes.items r.slots.items r.requests r.last };

    ghost lawful = { λ r. lawful-cuts r.bytes.items (chain r.slots.items) r.apart };

    // The buffer changes by stores alone.
    ghost chooses = { λ r size answer r'. Cuts (usable (length r.bytes.items)) (region r.bytes.items r.slots.items r.requests r.last) size answer × (r'.bytes ≡ r.bytes) };

    ghost gives = { λ r base answer r'. r'.bytes ≡ r.bytes };

    ghost stores = { λ r at byte answer r'. vec_items r'.bytes ≡ stored_in r.bytes.items (region r.bytes.items r.slots.items r.requests r.last) at byte };

    fn take(&mut self, size: usize) -> Result<usize, SourceFault> {
        if size == 0 || size > 67108864 {
            return Err(SourceFault::BlockSize);
        }
        self.requests = self.requests.wrapping_add(1);
        self.last = Some(Request {
            size,
            outcome: Outcome::Refused,
        });
        if self.slots.is_full() {
            return Err(SourceFault::NoBlock);
        }
        let base = self.lowest(size).ok_or(SourceFault::NoBlock)?;
        self.slots.push(Slot { base, size });
        self.last = Some(Request {
            size,
            outcome: Outcome::Granted,
        });
        Ok(base)
    }

    fn give(&mut self, base: usize) -> Result<(), SourceFault> {
        // In one pass: how many are left says whether there was such a block.
        let count = self.slots.len();
        self.slots.retain(|slot| slot.base != base);
        if self.slots.len() == count {
            return Err(SourceFault::Address);
        }
        Ok(())
    }

    // Beside those of `SubAllocator`, which are as short: each trait has its own load and store.
    fn load(&self, at: usize) -> Result<u8, SourceFault> {
        let i = self.place(at)?;
        Ok(self.bytes[i])
    }

    fn store(&mut self, at: usize, byte: u8) -> Result<(), SourceFault> {
        let i = self.place(at)?;
        self.bytes[i] = byte;
        Ok(())
    }
}
