// What a prepare is for is a letter, r or w.
ghost use Rattle.texts.specs.Parts.{access_form};
ghost use Rattle.fields.specs.Readers.{access_items};
ghost use Rattle.texts.specs.PartLaws.{access_fits, access_apart};

use crate::text::Text;
use fields::buffer::Buffer;
use fields::fault::Fault;
use fields::reader::Reader;
use protocol::message::Access;

impl Text for Access {
    ghost form = { access_form };

    ghost items = { access_items };

    ghost fits = { access_fits };

    ghost apart = { access_apart };

    fn read(reader: &mut Reader) -> Result<Access, Fault> {
        reader.access()
    }

    fn write(&self, buffer: &mut Buffer) {
        match self {
            Access::Read => buffer.letter(b'r'),
            Access::Write => buffer.letter(b'w'),
        }
    }
}
