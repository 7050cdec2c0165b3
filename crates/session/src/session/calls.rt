// The calls of a session. None asks anything of its caller: what cannot be served is refused, and changes nothing.
ghost use Rattle.std.specs.Prelude.{◌≡◌, IfErr, MatchOption, MatchResult};
ghost use Rattle.session.specs.Calls.{push, pop, pop_newest, load, store};
ghost use Rattle.session.specs.Steps.{fresh};
ghost use Rattle.session.specs.Records.{live, NotAmong, Found, Held, Addressed, Unaddressed};
ghost use Rattle.session.specs.Sessions.{state, pushed, popped, ended, loaded, Performs};
ghost use Rattle.session.specs.Runs.{SessionLaw};
ghost use Rattle.session.specs.Jobs.{JobLaw};
ghost use Rattle.session.specs.Growth.{GrowthLaw};
ghost use Rattle.session.specs.Statistics.{tracked, StatisticsLaw};
ghost use Rattle.allocator.specs.Stats.{unused};

use super::Session;
use crate::fault::Fault;
use crate::grant::Grant;
use crate::live::LiveSpan;
use allocator::{AllocationTracker, Allocator, Layout};
use arrayvec::ArrayVec;

impl<A: Allocator> Session<A> {
    // Every run of calls from here keeps the law.
    pub fn open(inner: A) -> Session<A>
        ensures inner { result.inner ≡ inner }
        ensures fresh { state A.Allocator result ≡ fresh (A.Allocator.blocks inner) }
        ensures law { SessionLaw A.Allocator result }
        ensures jobs { JobLaw A.Allocator result }
        ensures growth { GrowthLaw A.Allocator result }
    {
        Session {
            inner,
            spans: ArrayVec::new(),
            given: 0,
        }
    }

    // Answers the allocator, with whatever is still live.
    pub fn finish(self) -> A
        ensures { result ≡ self.inner }
    {
        let Session { inner, .. } = self;
        inner
    }

    // Answers a grant of a new span, and the span's address.
    pub fn push(&mut self, size: usize, align: usize) -> Result<(Grant, usize), Fault>
        ensures { Performs A.Allocator self.old (push size align) (pushed result) self.new }
    {
        let layout = Layout::from_size_align(size, align)?;
        if self.spans.is_full() || self.given == u32::MAX {
            return Err(Fault::Full);
        }
        let at = self.inner.push_alloc(layout)?;
        let number = self.given + 1;
        self.spans.push(LiveSpan {
            grant: number,
            at,
            layout,
        });
        self.given = number;
        Ok((Grant { number }, at))
    }

    // Gives the newest span back, by its grant. A refusal hands the grant back.
    pub fn pop(&mut self, grant: Grant) -> Result<(), (Grant, Fault)>
        ensures step { Performs A.Allocator self.old (pop grant.number) (popped result) self.new }
        ensures back { IfErr result (λ e. e.0 ≡ grant) }
    {
        self.pop_numbered(grant.number)
            .map_err(|fault| (grant, fault))
    }

    fn pop_numbered(&mut self, grant: u32) -> Result<(), Fault>
        ensures { Performs A.Allocator self.old (pop grant) (ended result) self.new }
    {
        self.find(grant).ok_or(Fault::NotLive)?;
        match self.spans.last() {
            Some(newest) if newest.grant == grant => self.pop_newest(),
            _ => Err(Fault::NotNewest),
        }
    }

    // Gives the newest span back, whatever its grant.
    pub fn pop_newest(&mut self) -> Result<(), Fault>
        ensures { Performs A.Allocator self.old pop_newest (ended result) self.new }
    {
        let newest = *self.spans.last().ok_or(Fault::NotLive)?;
        self.inner.pop_alloc(newest.at, newest.layout)?;
        self.spans.pop();
        Ok(())
    }

    pub fn load(&self, grant: &Grant, offset: usize) -> Result<u8, Fault>
        ensures { Performs A.Allocator self.now (load grant.now.number offset) (loaded result) self.now }
    {
        let at = self.address(grant, offset)?;
        Ok(self.inner.load(at)?)
    }

    pub fn store(&mut self, grant: &Grant, offset: usize, byte: u8) -> Result<(), Fault>
        ensures { Performs A.Allocator self.old (store grant.now.number offset byte) (ended result) self.new }
    {
        let at = self.address(grant, offset)?;
        Ok(self.inner.store(at, byte)?)
    }

    // The address of a byte of the grant's span. The spans of an allocator end far below the last number, so the sum is not cut.
    fn address(&self, grant: &Grant, offset: usize) -> Result<usize, Fault>
        ensures { MatchResult result (λ at. Addressed (state A.Allocator self.now).live grant.now.number offset at) (Unaddressed (state A.Allocator self.now).live grant.now.number offset) }
    {
        let span = self.find(grant.number).ok_or(Fault::NotLive)?;
        if offset >= span.layout.size() {
            return Err(Fault::Outside);
        }
        Ok(span.at.saturating_add(offset))
    }

    // The address and the size of the grant's live span.
    pub fn span_of(&self, grant: &Grant) -> Option<(usize, usize)>
        ensures { MatchOption result (NotAmong (state A.Allocator self.now).live grant.now.number) (λ p. Held (state A.Allocator self.now).live grant.now.number p.0 p.1) }
    {
        let span = self.find(grant.number)?;
        Some((span.at, span.layout.size()))
    }

    // The live span of the grant.
    fn find(&self, grant: u32) -> Option<LiveSpan>
        ensures { MatchOption result (NotAmong (live self.now.spans.items) grant) (λ span. Found (live self.now.spans.items) grant span) }
    {
        self.spans.iter().find(|span| span.grant == grant).copied()
    }
}

impl<T: Allocator> Session<AllocationTracker<T>> {
    // Opens a session over a new tracker, whose statistics are then those of the session's ledger: what it promises above
    // `open`.
    pub fn track(inner: T) -> Session<AllocationTracker<T>>
        ensures inner { result.inner.inner ≡ inner }
        ensures stats { result.inner.stats ≡ unused }
        ensures fresh { state (tracked T.Allocator) result ≡ fresh (T.Allocator.blocks inner) }
        ensures law { SessionLaw (tracked T.Allocator) result }
        ensures jobs { JobLaw (tracked T.Allocator) result }
        ensures growth { GrowthLaw (tracked T.Allocator) result }
        ensures statistics { StatisticsLaw T.Allocator result }
    {
        let tracker = AllocationTracker::new(inner);
        Session::open(tracker)
    }
}
