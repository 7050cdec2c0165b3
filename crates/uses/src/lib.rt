// The uses of an arena: sessions visit it one after the other, and its growth stays bounded through them all.
#![tactic(auto)]

ghost use Rattle.std.specs.Prelude.{◌≡◌, IfOk, MatchResult};
ghost use Rattle.allocator.specs.Stats.{unused};
ghost use Rattle.arena.specs.Views.{memory_at};
ghost use Rattle.session.specs.Steps.{fresh};
ghost use Rattle.session.specs.Sessions.{state};
ghost use Rattle.session.specs.Runs.{SessionLaw};
ghost use Rattle.session.specs.Growth.{GrowthLaw};
ghost use Rattle.session.specs.Statistics.{tracked, StatisticsLaw};
ghost use Rattle.uses.specs.Handles.{handle};
ghost use Rattle.uses.specs.Openings.{Opened, Unopened};
ghost use Rattle.uses.specs.Lives.{ArenaLaw, Acquired, Released, Visits, Leaves};

mod calls;

use allocator::{AllocationStats, AllocationTracker, Allocator};
use arena::{Arena, ArenaFault, ArenaHandle};
use session::Session;
use source::BlockSource;

// An arena over the source, with a first block of at least the requested capacity. A refusal hands the source back.
pub fn open<S: BlockSource>(source: S, cap: usize) -> Result<Arena<S>, (ArenaFault, S)>
    ensures answer { MatchResult result (λ a. Opened S.BlockSource source cap a) (λ e. Unopened S.BlockSource source cap e.0 e.1) }
    ensures law { IfOk result (λ a. ArenaLaw S.BlockSource a) }
{
    let mut arena = Arena::new(source);
    // no map_err: both arms move the arena
    match arena.with_capacity(cap) {
        Ok(()) => Ok(arena),
        Err(fault) => Err((fault, arena.close())),
    }
}

// Begins a use of the arena: a session over its handle.
pub fn enter<S: BlockSource>(arena: Arena<S>) -> Session<ArenaHandle<S>>
    ensures acquired { Acquired S.BlockSource arena result.inner }
    ensures fresh { state (handle S.BlockSource) result ≡ fresh (memory_at S.BlockSource.state result.inner) }
    ensures law { SessionLaw (handle S.BlockSource) result }
    ensures growth { GrowthLaw (handle S.BlockSource) result }
    ensures visits { Visits S.BlockSource (handle S.BlockSource) (λ h. h) arena result }
{
    Session::open(arena.acquire())
}

// Ends that use: the idle arena again. Beside `end`, as `enter` beside `begin`.
pub fn leave<S: BlockSource>(session: Session<ArenaHandle<S>>) -> Arena<S>
    ensures released { Released S.BlockSource session.inner result }
    ensures leaves { Leaves S.BlockSource session.inner result }
{
    session.finish().release()
}

// Begins a use of the arena: a session over a tracker of its handle. Beside `enter`, since a tracker has statistics to
// promise and to answer: a trait over both would need two impls for two lines.
pub fn begin<S: BlockSource>(arena: Arena<S>) -> Session<AllocationTracker<ArenaHandle<S>>>
    ensures acquired { Acquired S.BlockSource arena result.inner.inner }
    ensures stats { result.inner.stats ≡ unused }
    ensures fresh { state (tracked (handle S.BlockSource)) result ≡ fresh (memory_at S.BlockSource.state result.inner.inner) }
    ensures law { SessionLaw (tracked (handle S.BlockSource)) result }
    ensures growth { GrowthLaw (tracked (handle S.BlockSource)) result }
    ensures statistics { StatisticsLaw (handle S.BlockSource) result }
    ensures visits { Visits S.BlockSource (tracked (handle S.BlockSource)) (λ t. t.inner) arena result }
{
    Session::track(arena.acquire())
}

// Ends that use: its statistics, and the idle arena again.
pub fn end<S: BlockSource>(
    session: Session<AllocationTracker<ArenaHandle<S>>>,
) -> (AllocationStats, Arena<S>)
    ensures stats { result.0 ≡ session.inner.stats }
    ensures released { Released S.BlockSource session.inner.inner result.1 }
    ensures leaves { Leaves S.BlockSource session.inner.inner result.1 }
{
    let (stats, handle) = session.finish().into_stats();
    (stats, handle.release())
}
