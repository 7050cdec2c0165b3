// The blocks of an arena, each linked to the next and the last to the first.
ghost use Rattle.std.specs.Prelude.{◌≡◌, ℕ, ◌*◌, ◌^◌, ◌<◌, ◌≤◌, true, List, [], ◌∷◌, MatchOption};
ghost use Rattle.allocator.specs.Memory.{taken};
ghost use Rattle.source.specs.Blocks.{Outstanding};
ghost use Rattle.arena.specs.Rings.{chain, Linked, place, rising, opened, before, newest_size, newest, total};
ghost use Rattle.arena.specs.Meaning.{memory_of};

use crate::record::BlockRecord;
use arrayvec::ArrayVec;

// The records stand in the order in which their blocks were taken. Each size is at least twice the one before it, from 2^4 to 2^26, so 23 places are enough.
#[derive(Drop)]
pub struct Ring {
    records: ArrayVec<BlockRecord, 23>,
    ghost linked: { Linked records.items },
    ghost rises: { rising (chain records.items) ≡ true },
}

impl Ring {
    pub(crate) fn empty() -> Ring
        ensures { chain result.records.items ≡ [] }
    {
        Ring {
            records: ArrayVec::new(),
        }
    }

    // Is there a block?
    pub(crate) fn opened(&self) -> bool
        ensures { result ≡ opened (chain self.now.records.items) }
    {
        !self.records.is_empty()
    }

    // The oldest first.
    pub(crate) fn records(&self) -> &[BlockRecord]
        ensures { result.now ≡ self.now.records.items }
    {
        &self.records
    }

    // The newest block.
    pub(crate) fn tail(&self) -> Option<BlockRecord>
        ensures { MatchOption result (chain self.now.records.items ≡ []) (λ b. chain self.now.records.items ≡ place b ∷ before (chain self.now.records.items)) }
    {
        self.records.last().copied()
    }

    // How many bytes the blocks have together.
    pub(crate) fn total(&self) -> usize
        ensures { result ≡ total (chain self.now.records.items) }
    {
        self.records.iter().map(|r| r.size).sum()
    }

    // Is the address one of a taken byte, where so many of the newest block's are taken, and all of the others'?
    pub(crate) fn taken(&self, used: usize, at: usize) -> bool
        ensures { (bs : List Outstanding) → result ≡ taken (memory_of bs (chain self.now.records.items) used) at }
    {
        let Some((newest, older)) = self.records.split_last() else {
            return false;
        };
        newest.covers(used, at) || older.iter().any(|r| r.covers(r.room(), at))
    }

    // Puts a further block between the newest and the first.
    #[tactic(auto, using(crate::proofs::Joins::roomy))]
    pub(crate) fn push_next(&mut self, block: BlockRecord)
        requires { 2 * newest_size (chain self.old.records.items) ≤ block.size }
        ensures { chain self.new.records.items ≡ place block ∷ chain self.old.records.items }
    {
        let n = self.records.len();
        // taken out and put back: after a write through last_mut in a branch, no fact names the records
        if let Some(last) = self.records.pop() {
            self.records.push(last.linked_to(n));
        }
        self.records.push(block.linked_to(0));
    }

    // Leaves the newest block alone in the ring.
    pub(crate) fn keep_newest(&mut self)
        ensures { chain self.new.records.items ≡ newest (chain self.old.records.items) }
    {
        // one that is alone already stays as it is
        if self.records.len() <= 1 {
            return;
        }
        if let Some(tail) = self.tail() {
            self.records.clear();
            self.records.push(tail.linked_to(0));
        }
    }
}
