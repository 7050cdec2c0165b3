// A vector of elements of one kind, in a span that it pushed. No call asks anything of its caller.
ghost use Rattle.std.specs.Prelude.{◌≡◌, ◌-◌, ◌≤◌, [], ◌∷◌, Ok, Err, IfOk, IfErr, MatchResult, ◌==◌};
ghost use Rattle.session.specs.Sessions.{state};
ghost use Rattle.ser_vec.specs.Vectors.{plain, Lives, Tested, Extending, Setting, Getting, Popping, Reserving, Telling, Clearing, Closing, Acts, Opens, ended};

use crate::fault::Fault;
use crate::header::Header;
use allocator::Allocator;
use kind::Kind;
use session::Session;
use std::marker::{Model, PhantomData};

#[derive(Drop)]
pub struct SerVec<K> {
    // none without capacity
    header: Option<Header>,
    kind: PhantomData<K>,
}

// A clause sees a vector as its header, whose type says more of it than the numbers of `plain` do.
impl<K> Model for SerVec<K> {
    ghost use Rattle.std.specs.Prelude.{Option};
    ghost use Rattle.ser_vec.specs.declared.header.Header.{Header};

    ghost Value = { Option Header };

    ghost view = { λ v. v.header };
}

// With these lemmas the check itself proves the ways through a call that perform nothing in the session: they need no answer.
#[tactic(auto, using(crate::proofs::Vectors::unasked))]
impl<K: Kind> SerVec<K> {
    // Pushes a span for exactly so many elements. Without capacity it pushes nothing.
    pub fn with_capacity<A: Allocator>(
        session: &mut Session<A>,
        cap: usize,
    ) -> Result<SerVec<K>, Fault>
        ensures { MatchResult result (λ v. Opens A.Allocator K.Kind cap session.old (Ok (plain v)) session.new) (λ f. Opens A.Allocator K.Kind cap session.old (Err f) session.new) }
    {
        if cap == 0 {
            return Ok(SerVec {
                header: None,
                kind: PhantomData,
            });
        }
        let width = K::width();
        if cap > 16777216 / width {
            return Err(Fault::Session(session::Fault::Allocator(allocator::Fault::Size)));
        }
        let (grant, at) = session.push(cap * width, K::align())?;
        Ok(SerVec {
            header: Some(Header {
                grant,
                at,
                cap,
                len: 0,
            }),
            kind: PhantomData,
        })
    }

    // Refused unless the session has the vector's span on record. Without capacity there is none to have.
    fn live<A: Allocator>(&self, session: &Session<A>) -> Result<(), Fault>
        ensures { Tested K.Kind.wide (plain self.now) (state A.Allocator session.now) result }
    {
        let Some(header) = &self.header else {
            return Ok(());
        };
        let span = (header.at, header.cap * K::width());
        if session.span_of(&header.grant) == Some(span) {
            Ok(())
        } else {
            Err(Fault::Session(session::Fault::NotLive))
        }
    }

    pub fn clear<A: Allocator>(&mut self, session: &Session<A>) -> Result<(), Fault>
        ensures { Acts A.Allocator K.Kind.wide Clearing (plain self.old) session.now result (plain self.new) session.now }
    {
        self.live(session)?;
        if let Some(header) = &mut self.header {
            header.len = 0;
        }
        Ok(())
    }

    // How many elements the vector can hold.
    pub fn capacity<A: Allocator>(&self, session: &Session<A>) -> Result<usize, Fault>
        ensures { Acts A.Allocator K.Kind.wide (Telling (plain self.now).capacity) (plain self.now) session.now result (plain self.now) session.now }
    {
        self.live(session)?;
        Ok(self.header.as_ref().map_or(0, |header| header.cap))
    }

    // Refused unless so many more elements fit.
    pub fn reserve<A: Allocator>(
        &self,
        session: &Session<A>,
        additional: usize,
    ) -> Result<(), Fault>
        ensures step { Acts A.Allocator K.Kind.wide (Reserving additional) (plain self.now) session.now result (plain self.now) session.now }
        ensures room { IfOk result (λ _. Lives K.Kind.wide (plain self.now) (state A.Allocator session.now) × (additional ≤ (plain self.now).capacity - (plain self.now).len)) }
    {
        self.live(session)?;
        let room = self
            .header
            .as_ref()
            .map_or(0, |header| header.cap - header.len);
        if room < additional {
            return Err(Fault::Full);
        }
        Ok(())
    }

    // The source's other name for it: no more than what is asked is ever reserved.
    pub fn reserve_exact<A: Allocator>(
        &self,
        session: &Session<A>,
        additional: usize,
    ) -> Result<(), Fault>
        ensures { Acts A.Allocator K.Kind.wide (Reserving additional) (plain self.now) session.now result (plain self.now) session.now }
    {
        self.reserve(session, additional)
    }

    pub fn is_empty<A: Allocator>(&self, session: &Session<A>) -> Result<bool, Fault>
        ensures { Acts A.Allocator K.Kind.wide (Telling ((plain self.now).len == 0)) (plain self.now) session.now result (plain self.now) session.now }
    {
        self.live(session)?;
        Ok(self.header.as_ref().is_none_or(|header| header.len == 0))
    }

    pub fn len<A: Allocator>(&self, session: &Session<A>) -> Result<usize, Fault>
        ensures { Acts A.Allocator K.Kind.wide (Telling (plain self.now).len) (plain self.now) session.now result (plain self.now) session.now }
    {
        self.live(session)?;
        Ok(self.header.as_ref().map_or(0, |header| header.len))
    }

    // Appends the elements in their order.
    pub fn extend_from_slice<A: Allocator>(
        &mut self,
        session: &mut Session<A>,
        other: &[K],
    ) -> Result<(), Fault>
        ensures { Acts A.Allocator K.Kind.wide (Extending K.Kind other.now) (plain self.old) session.old result (plain self.new) session.new }
    {
        self.reserve(session, other.len())?;
        if let Some(header) = &mut self.header {
            header.write_all(session, header.len, other)?;
            header.len += other.len();
        }
        Ok(())
    }

    // Takes the last element off and answers it.
    pub fn pop<A: Allocator>(&mut self, session: &Session<A>) -> Result<Option<K>, Fault>
        ensures { Acts A.Allocator K.Kind.wide (Popping K.Kind) (plain self.old) session.now result (plain self.new) session.now }
    {
        self.live(session)?;
        match &mut self.header {
            Some(header) if header.len > 0 => {
                let x = header.read(session, header.len - 1)?;
                header.len -= 1;
                Ok(Some(x))
            }
            _ => Ok(None),
        }
    }

    // Appends an element: not as a slice of one, since an array of K owes a bound on K's size, which no law of kinds gives.
    pub fn push<A: Allocator>(&mut self, session: &mut Session<A>, value: K) -> Result<(), Fault>
        ensures { Acts A.Allocator K.Kind.wide (Extending K.Kind (value ∷ [])) (plain self.old) session.old result (plain self.new) session.new }
    {
        self.reserve(session, 1)?;
        if let Some(header) = &mut self.header {
            header.write(session, header.len, value)?;
            header.len += 1;
        }
        Ok(())
    }

    pub fn get<A: Allocator>(&self, session: &Session<A>, index: usize) -> Result<Option<K>, Fault>
        ensures { Acts A.Allocator K.Kind.wide (Getting K.Kind index) (plain self.now) session.now result (plain self.now) session.now }
    {
        self.live(session)?;
        match &self.header {
            Some(header) if index < header.len => Ok(Some(header.read(session, index)?)),
            _ => Ok(None),
        }
    }

    pub fn set<A: Allocator>(
        &self,
        session: &mut Session<A>,
        index: usize,
        value: K,
    ) -> Result<(), Fault>
        ensures { Acts A.Allocator K.Kind.wide (Setting K.Kind index value) (plain self.now) session.old result (plain self.now) session.new }
    {
        self.live(session)?;
        match &self.header {
            Some(header) if index < header.len => header.write(session, index, value),
            _ => Err(Fault::Session(session::Fault::Outside)),
        }
    }

    // Gives the span back. A refusal hands the vector back.
    pub fn close<A: Allocator>(self, session: &mut Session<A>) -> Result<(), (SerVec<K>, Fault)>
        ensures step { Acts A.Allocator K.Kind.wide Closing (plain self) session.old (ended result) (plain self) session.new }
        ensures back { IfErr result (λ e. plain e.0 ≡ plain self) }
    {
        // no `?`, since a refusal hands the vector back
        if let Err(fault) = self.live(session) {
            return Err((self, fault));
        }
        let SerVec { header, kind } = self;
        let Some(
            Header {
                grant,
                at,
                cap,
                len,
            },
        ) = header
        else {
            return Ok(());
        };
        // No map_err: its closure would have to be told again what the header's type says of cap and len.
        match session.pop(grant) {
            Ok(()) => Ok(()),
            Err((grant, fault)) => Err((
                SerVec {
                    header: Some(Header {
                        grant,
                        at,
                        cap,
                        len,
                    }),
                    kind,
                },
                Fault::Session(fault),
            )),
        }
    }
}
