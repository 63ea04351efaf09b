// A line comes in; the keeper's reply goes out as a line, or the number of the refusal does.
ghost use Rattle.protocol.specs.Refusals.{number_of};
ghost use Rattle.lines.specs.Messages.{line_of};
ghost use Rattle.answering.specs.Answers.{refusal_line, Filled, Replied, Heard, Answered};

use fields::buffer::Buffer;
use keeper::keeper::Keeper;
use lines::line::read;
use lines::writing::write_line;
use protocol::message::Message;
use protocol::refusal::Reason;
use protocol::store::Store;
use texts::text::Text;

// The line `X`, with the number of the reason.
fn write_refusal(reason: Reason, buffer: &mut Buffer)
    ensures { Filled (refusal_line (number_of reason)) buffer.new }
{
    buffer.clear();
    buffer.byte(b'X');
    buffer.number(u8::from(reason) as u64);
    buffer.byte(b'\n');
}

// The line of the reply; where that is longer than any line, a refusal in its place.
fn write_reply<T: Text>(reply: &Message<T>, buffer: &mut Buffer)
    ensures { Replied (line_of T.Text.items reply.now) buffer.new }
{
    buffer.clear();
    write_line(reply, buffer);
    if let Err(too_long) = buffer.line() {
        write_refusal(too_long.into(), buffer);
    }
}

// What the keeper makes of a line: its reply, or the reason why there is none.
fn hear<T: Text, S: Store<Value = T>>(
    keeper: &mut Keeper<S>,
    line: &[u8],
) -> Result<Message<T>, Reason>
    ensures { Heard T.Text.form T.Text.items S.Store.records S.Store.opened keeper.old line.now keeper.new result }
{
    let message = read::<T>(line)?;
    Ok(keeper.receive(&message)?)
}

// Answers one line. All that the buffer held before is gone.
pub fn answer<T: Text, S: Store<Value = T>>(
    keeper: &mut Keeper<S>,
    line: &[u8],
    buffer: &mut Buffer,
)
    ensures { Answered T.Text.form T.Text.items S.Store.records S.Store.opened keeper.old line.now keeper.new buffer.new }
{
    // Not passed up: a refusal is answered as well, by a line of its own.
    match hear(keeper, line) {
        Ok(reply) => write_reply(&reply, buffer),
        Err(reason) => write_refusal(reason, buffer),
    }
}
