// What reading and writing come to together, for every kind of value with a text form.
ghost use Rattle.std.specs.Prelude.{◌+◌, ◌*◌, ◌≤◌, length};
ghost use Rattle.protocol.specs.declared.message.Message.{Message};
ghost use Rattle.texts.specs.Meters.{meter_items};
ghost use Rattle.lines.specs.Lines.{OneLine, ReadBack};
ghost use Rattle.lines.specs.Messages.{line_of, message_items};

use crate::line::{read, write};
use fields::buffer::TooLong;
use kinds::meter::Meter;
use protocol::message::Message;
use texts::text::Text;

// A message whose line is not too long has exactly one accepted line; any other has none.
pub fn each_message_has_one_line<T: Text>()
    ensures { (m : Message T) → OneLine T.Text.form T.Text.items m }
{}

// A field has at most 13 digits, so a line is at most 14 bytes for each field, and two.
pub fn a_line_is_bounded_by_its_fields<T: Text>()
    ensures { (m : Message T) → length (line_of T.Text.items m) ≤ 14 * length (message_items T.Text.items m) + 2 }
{}

// Every message about a meter has a line.
pub fn every_line_of_a_meter_fits()
    ensures { (m : Message Meter) → length (line_of meter_items m) ≤ 1024 }
{}

// Writes the line of a message and reads it again: what is read is the message.
pub fn read_back<T: Text>(message: &Message<T>, out: &mut [u8]) -> Result<Message<T>, TooLong>
    ensures { ReadBack T.Text.items message.now out.old out.new result }
{
    let n = write(message, out)?;
    Ok(read(&out[..n]).unwrap())
}
