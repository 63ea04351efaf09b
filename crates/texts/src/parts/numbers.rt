// A keeper's number and the number of a round are one number each. Not one impl over the range: each type
// has its own field, and its own laws to show.
ghost use Rattle.texts.specs.Parts.{keeper_form, keeper_items, number_form, number_items};
ghost use Rattle.texts.specs.PartLaws.{keeper_fits, keeper_apart, number_fits, number_apart};

use crate::text::Text;
use fields::buffer::Buffer;
use fields::fault::Fault;
use fields::reader::Reader;
use protocol::making::TOP;
use protocol::message::{KeeperId, Number};

impl Text for KeeperId {
    ghost form = { keeper_form };

    ghost items = { keeper_items };

    ghost fits = { keeper_fits };

    ghost apart = { keeper_apart };

    fn read(reader: &mut Reader) -> Result<KeeperId, Fault> {
        let id = reader.number(0, 6)?;
        Ok(KeeperId { id: id as u8 })
    }

    fn write(&self, buffer: &mut Buffer) {
        buffer.number(self.id as u64);
    }
}

impl Text for Number {
    ghost form = { number_form };

    ghost items = { number_items };

    ghost fits = { number_fits };

    ghost apart = { number_apart };

    fn read(reader: &mut Reader) -> Result<Number, Fault> {
        let n = reader.number(1, TOP)?;
        Ok(Number { n })
    }

    fn write(&self, buffer: &mut Buffer) {
        buffer.number(self.n);
    }
}
