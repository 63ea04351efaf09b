// Values in a row, read and written one after another.
ghost use Rattle.std.specs.Prelude.{◌≡◌, length, IfOk};
ghost use Rattle.std.specs.List.{flat_map};
ghost use Rattle.fields.specs.Buffers.{Put};
ghost use Rattle.fields.specs.Readers.{Reading};
ghost use Rattle.texts.specs.Rows.{times};

use crate::text::Text;
use fields::buffer::Buffer;
use fields::fault::Fault;
use fields::reader::Reader;

// So many values. Until one is read its place holds `blank`.
// Not array::try_from_fn: that does not say where its closure left the reader.
pub fn read_row<P: Text, const N: usize>(blank: P, reader: &mut Reader) -> Result<[P; N], Fault>
    ensures is_whole { IfOk result (λ row. length row ≡ N) }
    ensures reads { Reading (times N P.Text.form) (flat_map P.Text.items) reader.old reader.new result }
{
    let mut row = [blank; N];
    for place in &mut row {
        *place = P::read(reader)?;
    }
    Ok(row)
}

pub fn write_row<P: Text>(row: &[P], buffer: &mut Buffer)
    ensures { Put (flat_map P.Text.items row.now) buffer.old buffer.new }
{
    for piece in row {
        piece.write(buffer);
    }
}
