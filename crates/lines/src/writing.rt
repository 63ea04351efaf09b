// Writes messages.
ghost use Rattle.fields.specs.Buffers.{Wrote, Put};
ghost use Rattle.lines.specs.Messages.{body_items, line_of};

use crate::letter::MessageKind;
use fields::buffer::Buffer;
use protocol::message::{Body, Message};
use texts::text::Text;

// The fields of a message behind its head.
pub(crate) fn write_body<T: Text>(body: &Body<T>, buffer: &mut Buffer)
    ensures { Put (body_items T.Text.items body.now) buffer.old buffer.new }
{
    match body {
        Body::Prepare(access) => access.write(buffer),
        Body::PrepareAt(number) => number.write(buffer),
        Body::Vote(number, value) => {
            number.write(buffer);
            value.write(buffer);
        }
        Body::State(state) => state.write(buffer),
        Body::Voted(keeper, number) => {
            keeper.write(buffer);
            number.write(buffer);
        }
    }
}

pub fn write_line<T: Text>(message: &Message<T>, buffer: &mut Buffer)
    ensures { Wrote (line_of T.Text.items message.now) buffer.old buffer.new }
{
    let kind = MessageKind::of(&message.body);
    buffer.byte(kind.into());
    message.head.write(buffer);
    write_body(&message.body, buffer);
    buffer.byte(b'\n');
}
