// What a caller has of a session's law.
ghost use Rattle.session.specs.Visits.{RoundTrips};

use crate::fault::Fault;
use crate::session::Session;
use allocator::Allocator;

// Stores a byte in a span of its own, reads it back and gives the span back.
pub fn round_trip<A: Allocator>(session: &mut Session<A>, byte: u8) -> Result<u8, Fault>
    ensures { RoundTrips A.Allocator session.old byte result session.new }
{
    let (grant, _) = session.push(1, 1)?;
    session.store(&grant, 0, byte)?;
    let read = session.load(&grant, 0)?;
    session.pop(grant).map_err(|(_, fault)| fault)?;
    Ok(read)
}
