// Values that travel in lines, whole or as parts of others.
ghost use Rattle.std.specs.Prelude.{◌≡◌, List};
ghost use Rattle.fields.specs.Buffers.{Put};
ghost use Rattle.fields.specs.Forms.{Item, Form, Fit};
ghost use Rattle.fields.specs.Readers.{Reading};

use fields::buffer::Buffer;
use fields::fault::Fault;
use fields::reader::Reader;

// A value that travels as some fields. Its form and its items go one by one to the definitions that speak of
// them, which stand below this trait.
pub trait Text: Copy {
    // What the fields have to be.
    ghost form: { Form };

    // The fields of a value.
    ghost items: { Self → List Item };

    fn read(reader: &mut Reader) -> Result<Self, Fault>
        ensures { Reading form items reader.old reader.new result };

    fn write(&self, buffer: &mut Buffer)
        ensures { Put (items self.now) buffer.old buffer.new };

    // Every value has a text.
    ghost fits: { (v : Self) → Fit form (items v) };

    // Two values do not have the same text.
    ghost apart: { (v w : Self) → items v ≡ items w → v ≡ w };
}
