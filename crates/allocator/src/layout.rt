// What a push asks for: a size and an alignment, as in Rust's Layout.
ghost use Rattle.std.specs.Prelude.{◌≡◌, ℕ, ◌%◌, ◌<◌, ◌≤◌, MatchResult};
ghost use Rattle.allocator.specs.Layouts.{Sized, Aligning, pad, LeastPad};
ghost use Rattle.allocator.specs.Faults.{NoLayout};

use crate::fault::Fault;

// No other layout exists: the powers of two up to 4,096 are its divisors.
#[derive(Clone, Copy)]
pub struct Layout {
    size: usize,
    align: usize,
    ghost some: { 0 < size },
    ghost small: { size ≤ 16777216 },
    ghost low: { 0 < align },
    ghost high: { align ≤ 4096 },
    ghost divides: { 4096 % align ≡ 0 },
}

// One byte, at any address. By hand, since a derived one would have the size 0.
impl Default for Layout {
    ghost is_default = { λ l. (l.size ≡ 1) × (l.align ≡ 1) };

    fn default() -> Layout {
        Layout { size: 1, align: 1 }
    }
}

impl Layout {
    // The size is looked at first.
    pub fn from_size_align(size: usize, align: usize) -> Result<Layout, Fault>
        ensures { MatchResult result (λ l. (l.size ≡ size) × (l.align ≡ align)) (NoLayout size align) }
    {
        if size == 0 || size > 16777216 {
            return Err(Fault::Size);
        }
        if align == 0 || align > 4096 || 4096 % align != 0 {
            return Err(Fault::Alignment);
        }
        Ok(Layout { size, align })
    }

    pub fn size(&self) -> usize
        ensures value { result ≡ self.now.size }
        ensures sized { Sized result }
    {
        self.size
    }

    pub fn align(&self) -> usize
        ensures value { result ≡ self.now.align }
        ensures aligning { Aligning result }
    {
        self.align
    }

    // How many bytes lie between the address and the next one that is aligned.
    pub fn align_offset(&self, at: usize) -> usize
        ensures value { result ≡ pad at self.now.align }
        ensures least { LeastPad at self.now.align result }
        ensures bound { result < self.now.align }
    {
        (self.align - at % self.align) % self.align
    }
}
