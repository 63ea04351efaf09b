// A pool is the numbers of the 32 holders, 0 for nobody, and of the permit granted last, 0 for none.
ghost use Rattle.texts.specs.Pools.{holder_form, holder_items, held_items, last_form, last_items, pool_form, pool_items};
ghost use Rattle.texts.specs.Laws.{holder_apart, holder_fits, held_apart, held_fits, last_apart, last_fits, pool_fits};
ghost use Rattle.std.proofs.Common.{sym, ◌∙◌};
ghost use Rattle.kinds.proofs.Permits.{same_pool};
ghost use Rattle.texts.specs.Rowed.{row_same};

use crate::row::{read_row, write_row};
use crate::text::Text;
use fields::buffer::Buffer;
use fields::fault::Fault;
use fields::reader::Reader;
use kinds::pool::holders::{MOST_FLAT, PERMITS};
use kinds::pool::{Flat, Holder, Permit, Pool};

impl Text for Option<Flat> {
    ghost form = { holder_form };

    ghost items = { holder_items };

    ghost fits = { holder_fits };

    ghost apart = { holder_apart };

    fn read(reader: &mut Reader) -> Result<Option<Flat>, Fault> {
        let number = reader.number(0, MOST_FLAT as u64)?;
        // 0 is the number of no flat.
        Ok(Flat::try_from(number as u8).ok())
    }

    fn write(&self, buffer: &mut Buffer) {
        buffer.number(self.map_or(0, |flat| flat.number as u64));
    }
}

// As the flat that holds, if one does.
impl Text for Holder {
    ghost form = { holder_form };

    ghost items = { held_items };

    ghost fits = { held_fits };

    ghost apart = { held_apart };

    fn read(reader: &mut Reader) -> Result<Holder, Fault> {
        let flat = Option::<Flat>::read(reader)?;
        Ok(flat.into())
    }

    fn write(&self, buffer: &mut Buffer) {
        self.flat().write(buffer);
    }
}

// Not one impl with that of a flat: a trait of what has a number would serve these two alone.
impl Text for Option<Permit> {
    ghost form = { last_form };

    ghost items = { last_items };

    ghost fits = { last_fits };

    ghost apart = { last_apart };

    fn read(reader: &mut Reader) -> Result<Option<Permit>, Fault> {
        let number = reader.number(0, PERMITS as u64)?;
        // 0 is the number of no permit.
        Ok(Permit::try_from(number as u8).ok())
    }

    fn write(&self, buffer: &mut Buffer) {
        buffer.number(self.map_or(0, |permit| permit.number as u64));
    }
}

impl Text for Pool {
    ghost form = { pool_form };

    ghost items = { pool_items };

    ghost fits = { pool_fits };

    ghost apart = { λ v w e.
        let p = row_same holder_form held_items held_fits held_apart v.holders w.holders (last_items v.last) (last_items w.last) (v.whole ∙ sym w.whole) e in
        same_pool v w p.0 (last_apart v.last w.last p.1) };

    fn read(reader: &mut Reader) -> Result<Pool, Fault> {
        let holders = read_row::<Holder, 32>(Holder::from(None), reader)?;
        let last = Option::<Permit>::read(reader)?;
        Ok(Pool { holders, last })
    }

    fn write(&self, buffer: &mut Buffer) {
        write_row(&self.holders, buffer);
        self.last.write(buffer);
    }
}
