// An allocator in use, with a record of the live spans.
ghost use Rattle.std.specs.Prelude.{◌+◌};
ghost use Rattle.session.specs.Records.{live, Numbered, Numbered-prop};

use crate::live::LiveSpan;
use arrayvec::ArrayVec;

// How many spans may be live at once.
const MOST_LIVE: usize = 64;

#[derive(Drop)]
pub struct Session<A> {
    inner: A,
    // the live ones, the oldest first
    spans: ArrayVec<LiveSpan, MOST_LIVE>,
    // the number of the last grant
    given: u32,
    ghost numbered: { Numbered (given + 1) (live spans.items) } by { Numbered-prop (given + 1) (live spans.items) },
}

mod calls;
