// A line to its message, and a message to its line.
ghost use Rattle.lines.specs.Lines.{Reads, Writing};
ghost use Rattle.lines.specs.Messages.{line_of};

use crate::letter::named_by;
use crate::reading::read_body;
use crate::writing::write_line;
use fields::buffer::{Buffer, TooLong};
use fields::fault::Fault;
use fields::reader::Reader;
use protocol::message::{Head, Message};
use texts::text::Text;

// The message whose line this is, or a fault that the line has. Of several faults it may name any one.
pub fn read<T: Text>(line: &[u8]) -> Result<Message<T>, Fault>
    ensures { Reads T.Text.form T.Text.items line.now result }
{
    let (first, mut reader) = Reader::open(line)?;
    let kind = named_by(first)?;
    let head = Head::read(&mut reader)?;
    let body = read_body::<T>(kind, &mut reader)?;
    reader.end()?;
    Ok(Message { head, body })
}

// Puts the line of a message at the start of `out`, and answers its length.
pub fn write<T: Text>(message: &Message<T>, out: &mut [u8]) -> Result<usize, TooLong>
    ensures { Writing (line_of T.Text.items message.now) out.old out.new result }
{
    let mut buffer = Buffer::new();
    write_line(message, &mut buffer);
    let line = buffer.line()?;
    let n = line.len();
    if n > out.len() {
        return Err(TooLong {});
    }
    out[..n].copy_from_slice(line);
    Ok(n)
}
