// Elements as bytes of a vector's span: stored one by one, and loaded one by one.
ghost use Rattle.std.specs.Prelude.{◌≡◌, ℕ, ◌+◌, ◌*◌, ◌<◌, ◌≤◌, [], ◌∷◌, length};
ghost use Rattle.ser_vec.specs.Elements.{packings, Room, Writes, Reads};

use crate::fault::Fault;
use crate::header::Header;
use allocator::Allocator;
use kind::Kind;
use session::Session;

// `Room` is a premise in the clauses and no `requires`, so that a call is safe in a session that has lost the span.
impl Header {
    // Stores the packing of an element, at that index.
    pub(crate) fn write<K: Kind, A: Allocator>(
        &self,
        session: &mut Session<A>,
        index: usize,
        x: K,
    ) -> Result<(), Fault>
        requires { index < self.now.cap }
        ensures { Room A.Allocator session.old self.now.grant.number self.now.at (index * K.Kind.wide) (1 * K.Kind.wide) → Writes A.Allocator session.old self.now.grant.number self.now.at (index * K.Kind.wide) (packings K.Kind (x ∷ [])) (1 * K.Kind.wide) result session.new }
    {
        let offset = index * K::width();
        // by index, as a kind gives its bytes
        for j in 0..K::width() {
            session.store(&self.grant, offset + j, x.byte(j))?;
        }
        Ok(())
    }

    // Stores the packings of the elements, one after the other, from that index on.
    pub(crate) fn write_all<K: Kind, A: Allocator>(
        &self,
        session: &mut Session<A>,
        index: usize,
        xs: &[K],
    ) -> Result<(), Fault>
        requires { index + length xs.now ≤ self.now.cap }
        ensures { Room A.Allocator session.old self.now.grant.number self.now.at (index * K.Kind.wide) (length xs.now * K.Kind.wide) → Writes A.Allocator session.old self.now.grant.number self.now.at (index * K.Kind.wide) (packings K.Kind xs.now) (length xs.now * K.Kind.wide) result session.new }
    {
        for (i, x) in xs.iter().enumerate() {
            self.write(session, index + i, *x)?;
        }
        Ok(())
    }

    // Loads the bytes of the element at that index and unpacks them.
    pub(crate) fn read<K: Kind, A: Allocator>(
        &self,
        session: &Session<A>,
        index: usize,
    ) -> Result<K, Fault>
        requires { index < self.now.cap }
        ensures { Room A.Allocator session.now self.now.grant.number self.now.at (index * K.Kind.wide) K.Kind.wide → Reads A.Allocator K.Kind session.now self.now.grant.number self.now.at (index * K.Kind.wide) result }
    {
        let offset = index * K::width();
        // As wide as a kind may be: an array of the kind's own width would want a computed const argument.
        let mut bytes = [0u8; 64];
        for (j, byte) in bytes[..K::width()].iter_mut().enumerate() {
            *byte = session.load(&self.grant, offset + j)?;
        }
        Ok(K::unpack(&bytes))
    }
}
