// An arena while it is idle, and while a handle has exclusive allocation rights in it.
ghost use Rattle.std.specs.Prelude.{◌≡◌, ◌≤◌, true};
ghost use Rattle.arena.specs.Rings.{room, counted};
ghost use Rattle.arena.specs.Meaning.{Kept, Kept-prop};
ghost use Rattle.arena.specs.Arenas.{blocks_of};

use crate::ring::Ring;
use source::BlockSource;

mod calls;

// It starts unopened, with no block.
#[derive(Drop)]
pub struct Arena<S: BlockSource> {
    source: S,
    ring: Ring,
    // the blocks granted after the first one, over the arena's life
    growths: usize,
    ghost counted: { counted growths (blocks_of ring) ≡ true },
    ghost kept: { Kept (S.state source).blocks (blocks_of ring) } by { Kept-prop (S.state source).blocks (blocks_of ring) },
}

// A handle which can allocate within an arena. It is the arena in use: only its release gives the idle arena back.
#[derive(Drop)]
pub struct ArenaHandle<S: BlockSource> {
    arena: Arena<S>,
    // The mark: how many usable bytes of the newest block are taken. No Vec, since the bytes are the source's.
    used: usize,
    ghost marked: { used ≤ room (blocks_of arena.ring) },
}
