// Reads the fields of a message behind its head.
ghost use Rattle.lines.specs.Messages.{BodyReading};

use crate::letter::MessageKind;
use fields::fault::Fault;
use fields::reader::Reader;
use protocol::message::{Access, Body, KeeperId, Number, State};
use texts::text::Text;

pub(crate) fn read_body<T: Text>(kind: MessageKind, reader: &mut Reader) -> Result<Body<T>, Fault>
    ensures { BodyReading T.Text.form T.Text.items kind reader.old reader.new result }
{
    match kind {
        MessageKind::Prepare => Ok(Body::Prepare(Access::read(reader)?)),
        MessageKind::PrepareAt => Ok(Body::PrepareAt(Number::read(reader)?)),
        MessageKind::Vote => {
            let number = Number::read(reader)?;
            let value = T::read(reader)?;
            Ok(Body::Vote(number, value))
        }
        MessageKind::State => Ok(Body::State(State::<T>::read(reader)?)),
        MessageKind::Voted => {
            let keeper = KeeperId::read(reader)?;
            let number = Number::read(reader)?;
            Ok(Body::Voted(keeper, number))
        }
    }
}
