// What the layer does with a request.
ghost use Rattle.std.specs.Prelude.{◌≡◌};
ghost use Rattle.once.specs.Layers.{new_layer, once_applies, noting};

use crate::layer::{Once, Request, Sessions, Writer};
use protocol::kind::{Applied, Denial, Kind};
use std::cmp::Ordering;

impl<K: Kind> Once<K> {
    // A new write: unless it is denied below, it is carried, with the value and the answer from below.
    fn write(&self, writer: Writer, command: &K::Command) -> Result<Applied<Once<K>>, Denial>
        ensures { result ≡ noting self.now writer (K.Kind.applies self.now.below command.now) }
    {
        let (below, answer) = match self.below.apply(command)? {
            Applied::Carried(below, answer) => (below, answer),
            Applied::Already(answer) => (self.below, answer),
        };
        let mut sessions = self.sessions;
        sessions.note(writer, answer);
        Ok(Applied::Carried(Once { sessions, below }, answer))
    }
}

impl<K: Kind> Kind for Once<K> {
    type Command = Request<K::Command>;

    ghost first = { new_layer K.Kind.first };

    ghost applies = { once_applies K.Kind.applies };

    fn start() -> Once<K> {
        Once {
            sessions: Sessions::new(),
            below: K::start(),
        }
    }

    fn apply(&self, request: &Request<K::Command>) -> Result<Applied<Once<K>>, Denial> {
        let writer = Writer::try_from(request)?;
        let last = self.sessions.of(writer);
        match writer.number.cmp(&last.number) {
            Ordering::Less => Err(Denial::NumberBelowLast),
            Ordering::Equal => Ok(Applied::Already(last.answer)),
            Ordering::Greater => self.write(writer, &request.command),
        }
    }
}
