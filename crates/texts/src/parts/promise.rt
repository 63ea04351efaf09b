// A promise is whether it was raised, 0 or 1, and its number.
ghost use Rattle.texts.specs.Parts.{promise_form, promise_items};
ghost use Rattle.texts.specs.PartLaws.{promise_fits, promise_apart};

use crate::text::Text;
use fields::buffer::Buffer;
use fields::fault::Fault;
use fields::reader::Reader;
use protocol::making::TOP;
use protocol::message::Promise;

impl Text for Promise {
    ghost form = { promise_form };

    ghost items = { promise_items };

    ghost fits = { promise_fits };

    ghost apart = { promise_apart };

    // The promised number is at least the one in front of it: from 1 where it was raised.
    fn read(reader: &mut Reader) -> Result<Promise, Fault> {
        let raised = reader.number(0, 1)?;
        let n = reader.number(raised, TOP)?;
        Ok(Promise {
            raised: raised == 1,
            n,
        })
    }

    fn write(&self, buffer: &mut Buffer) {
        buffer.number(self.raised as u64);
        buffer.number(self.n);
    }
}
