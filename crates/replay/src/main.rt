// Replays a run card from standard input, and prints what each of its calls was answered.
#![tactic(auto)]

mod input;

use cards::{Blank, Card};
use job::{Totals, run_entries};
use region::Region;
use std::alloc::Global;
use std::error::Error;
use uses::{begin, end, open};

// How many bytes the region has.
const REGION_BYTES: usize = 49_152;

fn main(rt: HostRuntime) -> anyhow::Result<()> {
    replay(&rt, rt.alloc())
}

fn replay(rt: &HostRuntime, heap: Global) -> anyhow::Result<()> {
    match card(rt, heap)? {
        Ok(card) => run(rt, heap, &card),
        Err(fault) => refuse(rt, fault),
    }
}

// The card that the input writes. Its text is let go before the card is run.
fn card(rt: &HostRuntime, heap: Global) -> anyhow::Result<Result<Card, cards::Fault>> {
    let Some(text) = input::read(rt.stdin(), heap)? else {
        return Ok(Err(cards::Fault::Broken));
    };
    Ok(Card::read(Blank::new(heap)?, text.as_slice()))
}

// Runs the card in a session on a tracker on an arena on a region.
fn run(rt: &HostRuntime, heap: Global, card: &Card) -> anyhow::Result<()> {
    let region = Region::new(vec![in heap; 0u8; REGION_BYTES]?);
    let arena = match open(region, card.capacity()) {
        Ok(arena) => arena,
        Err((fault, _)) => return refuse(rt, fault),
    };
    let mut session = begin(arena);
    let lines = run_entries(&mut session, heap, card.entries())?;
    let (stats, arena) = end(session);
    for line in lines {
        println!(rt; "{line}")?;
    }
    let totals = Totals {
        stats,
        grown: arena.growths(),
        held: arena.held(),
    };
    println!(rt; "{totals}")?;
    Ok(())
}

fn refuse<F: Error>(rt: &HostRuntime, fault: F) -> anyhow::Result<()> {
    println!(rt; "{fault}")?;
    Ok(())
}
