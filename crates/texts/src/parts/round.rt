// A round is its number, its hub and that hub's attempt.
ghost use Rattle.texts.specs.Parts.{round_form, round_items};
ghost use Rattle.texts.specs.PartLaws.{round_fits, round_apart};

use crate::text::Text;
use fields::buffer::Buffer;
use fields::fault::Fault;
use fields::reader::Reader;
use protocol::making::TOP;
use protocol::round::Round;

impl Text for Round {
    ghost form = { round_form };

    ghost items = { round_items };

    ghost fits = { round_fits };

    ghost apart = { round_apart };

    fn read(reader: &mut Reader) -> Result<Round, Fault> {
        let n = reader.number(0, TOP)?;
        let hub = reader.number(0, 15)?;
        let attempt = reader.number(0, TOP)?;
        Ok(Round {
            n,
            hub: hub as u8,
            attempt,
        })
    }

    fn write(&self, buffer: &mut Buffer) {
        buffer.number(self.n);
        buffer.number(self.hub as u64);
        buffer.number(self.attempt);
    }
}
