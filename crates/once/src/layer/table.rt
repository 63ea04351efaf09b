// The table of sessions.
ghost use Rattle.std.specs.Prelude.{◌≡◌, ◌-◌};
ghost use Rattle.once.specs.Layers.{no_session, new_sessions, session_of, noted, writer_of};

use crate::layer::{Request, Session, Sessions, Writer};
use protocol::making::TOP;
use protocol::refusal::OutOfRange;

// The hub and number of a request that is in range.
impl<C> TryFrom<&Request<C>> for Writer {
    type Error = OutOfRange;

    ghost try_from_gives = { λ request r. r ≡ writer_of request.now.hub request.now.number };

    fn try_from(request: &Request<C>) -> Result<Writer, OutOfRange> {
        let hub = request.hub;
        let number = request.number;
        if !(1..=15).contains(&hub) || !(1..=TOP).contains(&number) {
            return Err(OutOfRange {});
        }
        Ok(Writer { hub, number })
    }
}

impl Writer {
    // Where the writer's entry stands in the table.
    fn place(self) -> usize
        ensures { result ≡ self.hub - 1 }
    {
        usize::from(self.hub) - 1
    }
}

impl Session {
    // A hub that wrote nothing yet.
    pub fn none() -> Session
        ensures { result ≡ no_session }
    {
        Session {
            number: 0,
            answer: 0,
        }
    }
}

impl Sessions {
    pub fn new() -> Sessions
        ensures { result ≡ new_sessions }
    {
        Sessions {
            table: [Session::none(); 15],
        }
    }

    pub(crate) fn of(&self, writer: Writer) -> Session
        ensures { result ≡ session_of self.now writer.hub }
    {
        self.table[writer.place()]
    }

    // Replaces the writer's entry, and no other.
    pub(crate) fn note(&mut self, writer: Writer, answer: u32)
        ensures { self.new ≡ noted self.old writer answer }
    {
        let number = writer.number;
        self.table[writer.place()] = Session { number, answer };
    }
}
