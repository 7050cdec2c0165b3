// The run of a card's entries in a session over any allocator.
ghost use Rattle.std.specs.Prelude.{◌≡◌, IfOk, MatchOption, OnErr};
ghost use Rattle.session.specs.Calls.{push, pop_newest};
ghost use Rattle.job.specs.Reports.{call_of, Told, Reported};

use crate::listing::{Answer, Line};
use allocator::Allocator;
use cards::{Entry, Letter};
use session::{Fault, Session};
use std::alloc::{AllocError, Global};

// A line for each entry, from its call in the session. Where there is no memory for the lines, no call is made.
pub fn run_entries<A: Allocator>(
    session: &mut Session<A>,
    heap: Global,
    entries: &[Entry],
) -> Result<Vec<Line>, AllocError>
    ensures reports { IfOk result (λ lines. Reported A.Allocator session.old entries.now lines.items session.new) }
    ensures same { OnErr result (session.new ≡ session.old) }
{
    let mut lines = Vec::with_capacity(heap, entries.len())?;
    // No chain: of a closure that changes the session nothing would be known.
    for (i, entry) in entries.iter().enumerate() {
        let answer = step(session, *entry);
        lines.push_reserved(Line {
            number: i + 1,
            letter: entry.letter,
            answer,
        });
    }
    Ok(lines)
}

// The answer of the session to the entry's call.
fn step<A: Allocator>(session: &mut Session<A>, entry: Entry) -> Result<Answer, Fault>
    ensures { Told A.Allocator session.old (call_of entry) result session.new }
{
    match pushed(entry) {
        Some((size, align)) => {
            let (_, at) = session.push(size, align)?;
            Ok(Answer::At(at))
        }
        None => {
            session.pop_newest()?;
            Ok(Answer::Done)
        }
    }
}

// The bytes and the alignment that the entry pushes; a pop pushes none.
fn pushed(entry: Entry) -> Option<(usize, usize)>
    ensures { MatchOption result (call_of entry ≡ pop_newest) (λ p. call_of entry ≡ push p.0 p.1) }
{
    match entry.letter {
        // The widths and alignments are those that the crate kind gives positions and cues. A product past the largest
        // number stops there: it is refused for its size either way.
        Letter::Positions => Some((entry.size.saturating_mul(4), 4)),
        Letter::Cues => Some((entry.size.saturating_mul(16), 8)),
        letter => Some((entry.size, letter.align()?)),
    }
}
