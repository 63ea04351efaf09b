// A meter is one number, its total. Not one impl with the other types of one number: each has its own
// field, and its own laws to show.
ghost use Rattle.texts.specs.Meters.{meter_form, meter_items};
ghost use Rattle.kinds.proofs.Totals.{same_meter};
ghost use Rattle.texts.specs.Laws.{meter_fits};

use crate::text::Text;
use fields::buffer::Buffer;
use fields::fault::Fault;
use fields::reader::Reader;
use kinds::meter::Meter;
use kinds::meter::rules::MOST_TOTAL;

impl Text for Meter {
    ghost form = { meter_form };

    ghost items = { meter_items };

    ghost fits = { meter_fits };

    ghost apart = { λ v w e. same_meter v w (cc) };

    fn read(reader: &mut Reader) -> Result<Meter, Fault> {
        let total = reader.number(0, MOST_TOTAL as u64)?;
        Ok(Meter {
            total: total as u32,
        })
    }

    fn write(&self, buffer: &mut Buffer) {
        buffer.number(self.total as u64);
    }
}
