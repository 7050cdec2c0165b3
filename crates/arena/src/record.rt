// One block of a ring.
ghost use Rattle.std.specs.Prelude.{◌≡◌, ◌+◌, ◌-◌, ◌^◌, ◌<◌, ◌≤◌};
ghost use Rattle.allocator.specs.Memory.{spans};

// Where the block lies, how many bytes it has, and which record is the next one's.
#[derive(Clone, Copy, Debug, PartialEq, Eq)]
pub struct BlockRecord {
    pub address: usize,
    pub size: usize,
    // By index, since the memory is fixed; that each block is linked to the next is a rule of the product.
    pub next: usize,
    ghost some: { 16 ≤ size },
    ghost small: { size ≤ 67108864 },
    ghost low: { address < 2 ^ 48 },
}

// A blank. By hand, since a derived one would have the size 0.
impl Default for BlockRecord {
    fn default() -> BlockRecord {
        BlockRecord {
            address: 0,
            size: 16,
            next: 0,
        }
    }
}

impl BlockRecord {
    // The usable length: the first 16 bytes are reserved.
    pub(crate) fn room(self) -> usize
        ensures { result ≡ self.size - 16 }
    {
        self.size - 16
    }

    // The same block, linked to that place. By its fields, since `..` is refused beside ghost fields.
    pub(crate) fn linked_to(self, next: usize) -> BlockRecord
        ensures { result ≡ record self { next = next } }
    {
        BlockRecord {
            address: self.address,
            size: self.size,
            next,
        }
    }

    // Is the address one of the first so many usable bytes? Beside the tests of `SubAllocator` and `Region`, whose bytes
    // begin elsewhere.
    pub(crate) fn covers(self, many: usize, at: usize) -> bool
        ensures { result ≡ spans (self.address + 16) many at }
    {
        let first = self.address + 16;
        first <= at && at - first < many
    }
}
