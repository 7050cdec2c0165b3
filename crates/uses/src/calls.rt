// The calls of an arena outside a session: what each gives of the arena's life. No program calls these: they show that a life goes on as the contracts
// say, and by nothing more.
ghost use Rattle.uses.specs.Lives.{Rests, LeavesUnvisited};

use arena::{Arena, ArenaFault, ArenaHandle};
use source::BlockSource;

fn reopen<S: BlockSource>(arena: &mut Arena<S>, cap: usize) -> Result<(), ArenaFault>
    ensures { Rests S.BlockSource arena.old arena.new }
{
    arena.with_capacity(cap)
}

fn shrink<S: BlockSource>(arena: &mut Arena<S>) -> usize
    ensures { Rests S.BlockSource arena.old arena.new }
{
    arena.shrink()
}

fn release<S: BlockSource>(handle: ArenaHandle<S>) -> Arena<S>
    ensures { LeavesUnvisited S.BlockSource handle result }
{
    handle.release()
}
