// An allocator that sub-allocates a fixed-size memory space.
#![tactic(auto)]

ghost use Rattle.std.specs.Prelude.{◌≡◌, ℕ, ◌+◌, ◌<◌, ◌≤◌, false, [], IfOk, IfErr};
ghost use Rattle.allocator.specs.Memory.{Memory, taken};
ghost use Rattle.allocator.specs.declared.fault.Fault.TheVariants.{Address};
ghost use Rattle.sub_allocator.specs.Buffers.{room, fixed, fixed-lawful, stored_in, Alone};

use allocator::{Allocator, Cause, Fault, Layout};

mod figures;

pub use figures::buffer_figures;

// The caller's buffer as one block, of its first 2^47 bytes at most.
#[derive(Drop)]
pub struct SubAllocator<'a> {
    bytes: &'a mut [u8],
    base: usize,
    // The mark: how many of the usable bytes are taken. No Vec, since the buffer is the caller's.
    used: usize,
    ghost low: { base < 140737488355328 },
    ghost inside: { used ≤ room bytes.now },
}

impl<'a> SubAllocator<'a> {
    // An allocator with no memory.
    pub fn empty() -> SubAllocator<'a>
        ensures { fixed result.base result.used result.bytes.now ≡ fixed 0 0 [] }
    {
        SubAllocator {
            bytes: &mut [],
            base: 0,
            used: 0,
        }
    }

    // The bytes of the buffer have the addresses from `base` on, which is taken modulo 2^47.
    pub fn new(bytes: &'a mut [u8], base: usize) -> SubAllocator<'a>
        ensures blocks { fixed result.base result.used result.bytes.now ≡ fixed base 0 bytes.old }
        ensures bytes { result.bytes.now ≡ bytes.old }
        ensures lent { result.bytes.ghost_name ≡ bytes.entry.ghost_name }
    {
        SubAllocator {
            bytes,
            base: base % 140737488355328,
            used: 0,
        }
    }

    fn room(&self) -> usize
        ensures { result ≡ room self.now.bytes.now }
    {
        self.bytes.len().min(140737488355328)
    }

    // Where in the buffer the byte of a taken address is. Beside that of `Region`: there an address is of one of many
    // blocks.
    fn place(&self, at: usize) -> Result<usize, Fault>
        ensures found { IfOk result (λ i. (at ≡ self.now.base + i) × (i < self.now.used)) }
        ensures lost { IfErr result (λ fault. (fault ≡ Address) × (taken (fixed self.now.base self.now.used self.now.bytes.now) at ≡ false)) }
    {
        if at < self.base || at - self.base >= self.used {
            return Err(Fault::Address);
        }
        Ok(at - self.base)
    }
}

impl<'a> Allocator for SubAllocator<'a> {
    ghost blocks = { λ s. fixed s.base s.used s.bytes.now };

    ghost lawful = { λ s. fixed-lawful s.base s.used s.bytes.now };

    // It has no further block. The buffer behind it stays the caller's, and only stores change it.
    ghost pushes = { λ s size align r t. Alone (fixed s.base s.used s.bytes.now) size align r × (t.bytes.now ≡ s.bytes.now) × (t.bytes.ghost_name ≡ s.bytes.ghost_name) };

    ghost pops = { λ s at size r t. (t.bytes.now ≡ s.bytes.now) × (t.bytes.ghost_name ≡ s.bytes.ghost_name) };

    ghost stores = { λ s at byte r t. (t.bytes.now ≡ stored_in s.base s.used s.bytes.now at byte) × (t.bytes.ghost_name ≡ s.bytes.ghost_name) };

    fn push_alloc(&mut self, layout: Layout) -> Result<usize, Fault> {
        // Beside `ArenaHandle`, which grows where this refuses: what both compute is `Layout`'s.
        let top = self.base + self.used;
        let pad = layout.align_offset(top);
        let wanted = pad + layout.size();
        if wanted > self.room() - self.used {
            return Err(Fault::DoesNotFit(Cause::FixedBuffer));
        }
        self.used += wanted;
        Ok(top + pad)
    }

    fn pop_alloc(&mut self, at: usize, _layout: Layout) -> Result<(), Fault> {
        let i = self.place(at)?;
        self.used = i;
        Ok(())
    }

    fn load(&self, at: usize) -> Result<u8, Fault> {
        let i = self.place(at)?;
        Ok(self.bytes[i])
    }

    fn store(&mut self, at: usize, byte: u8) -> Result<(), Fault> {
        let i = self.place(at)?;
        self.bytes[i] = byte;
        Ok(())
    }
}
