// Where an outstanding block of a region lies.
ghost use Rattle.std.specs.Prelude.{◌≡◌, ◌+◌, ◌%◌, ◌^◌, ◌&&◌, nat_lt};
ghost use Rattle.allocator.specs.Memory.{spans};

#[derive(Clone, Copy, Debug, Default, PartialEq, Eq)]
pub struct Slot {
    pub base: usize,
    pub size: usize,
}

impl Slot {
    // By a difference, which fits where a sum might not.
    pub(crate) fn contains(&self, at: usize) -> bool
        ensures { result ≡ spans self.now.base self.now.size at }
    {
        self.base <= at && at - self.base < self.size
    }

    // Does the block overlap one from that base to before that end? Its own end is a sum that wraps, as that of no slot of a
    // region does: a search makes this test of every slot, and one of differences took a quarter longer.
    pub(crate) fn overlaps(&self, base: usize, end: usize) -> bool
        ensures { result ≡ (nat_lt self.now.base end && nat_lt base ((self.now.base + self.now.size) % 2 ^ 64)) }
    {
        self.base < end && base < self.base.wrapping_add(self.size)
    }
}
