// What a keeper tells of its record: its number, the promise, the voted round and the value.
ghost use Rattle.texts.specs.Parts.{state_form, state_items};
ghost use Rattle.texts.specs.PartLaws.{state_fits, state_apart};

use crate::text::Text;
use fields::buffer::Buffer;
use fields::fault::Fault;
use fields::reader::Reader;
use protocol::message::{KeeperId, Promise, State};
use protocol::round::Round;

impl<T: Text> Text for State<T> {
    ghost form = { state_form T.Text.form };

    ghost items = { state_items T.Text.items };

    ghost fits = { state_fits T.Text.form T.Text.items T.Text.fits };

    ghost apart = { state_apart T.Text.items T.Text.apart };

    fn read(reader: &mut Reader) -> Result<State<T>, Fault> {
        let keeper = KeeperId::read(reader)?;
        let promise = Promise::read(reader)?;
        let voted = Round::read(reader)?;
        let value = T::read(reader)?;
        Ok(State {
            keeper,
            promise,
            voted,
            value,
        })
    }

    fn write(&self, buffer: &mut Buffer) {
        self.keeper.write(buffer);
        self.promise.write(buffer);
        self.voted.write(buffer);
        self.value.write(buffer);
    }
}
