// A head is its register, its hub and that hub's attempt. Not one impl with a round: each of the two has
// its own fields and ranges.
ghost use Rattle.texts.specs.Parts.{head_form, head_items};
ghost use Rattle.texts.specs.PartLaws.{head_fits, head_apart};

use crate::text::Text;
use fields::buffer::Buffer;
use fields::fault::Fault;
use fields::reader::Reader;
use protocol::making::TOP;
use protocol::message::Head;

impl Text for Head {
    ghost form = { head_form };

    ghost items = { head_items };

    ghost fits = { head_fits };

    ghost apart = { head_apart };

    fn read(reader: &mut Reader) -> Result<Head, Fault> {
        let register = reader.number(0, 63)?;
        let hub = reader.number(1, 15)?;
        let attempt = reader.number(1, TOP)?;
        Ok(Head {
            register: register as u8,
            hub: hub as u8,
            attempt,
        })
    }

    fn write(&self, buffer: &mut Buffer) {
        buffer.number(self.register as u64);
        buffer.number(self.hub as u64);
        buffer.number(self.attempt);
    }
}
