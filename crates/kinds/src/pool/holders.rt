// Permits and flats by number, and who holds which permit.
ghost use Rattle.std.specs.Prelude.{◌≡◌};
ghost use Rattle.kinds.specs.Pools.{permit_numbered, permit_after, flat_numbered, flat_of, holder_for, holder_of, free?, count_of};

use crate::pool::{Flat, Holder, Permit, Pool};
use protocol::refusal::OutOfRange;

// How many permits there are, and the greatest number of a flat.
pub const PERMITS: u8 = 32;

pub const MOST_FLAT: u8 = 200;

impl TryFrom<u8> for Permit {
    type Error = OutOfRange;

    ghost try_from_gives = { λ number r. r ≡ permit_numbered number };

    fn try_from(number: u8) -> Result<Permit, OutOfRange> {
        if !(1..=PERMITS).contains(&number) {
            return Err(OutOfRange {});
        }
        Ok(Permit { number })
    }
}

impl TryFrom<u8> for Flat {
    type Error = OutOfRange;

    ghost try_from_gives = { λ number r. r ≡ flat_numbered number };

    fn try_from(number: u8) -> Result<Flat, OutOfRange> {
        if !(1..=MOST_FLAT).contains(&number) {
            return Err(OutOfRange {});
        }
        Ok(Flat { number })
    }
}

// The byte for nobody, or for the flat that holds.
impl From<Option<Flat>> for Holder {
    ghost from_gives = { λ flat holder. holder ≡ holder_for flat };

    fn from(flat: Option<Flat>) -> Holder {
        Holder {
            number: flat.map_or(0, |flat| flat.number),
        }
    }
}

impl Holder {
    // The flat that holds, if one does.
    pub fn flat(self) -> Option<Flat>
        ensures { result ≡ flat_of self }
    {
        Flat::try_from(self.number).ok()
    }
}

impl Permit {
    // The permit after another, going round: after 32 comes 1, as it does where there is none before.
    pub(crate) fn after(permit: Option<Permit>) -> Permit
        ensures { result ≡ permit_after permit }
    {
        match permit {
            Some(Permit { number }) if number < PERMITS => Permit { number: number + 1 },
            _ => Permit { number: 1 },
        }
    }
}

impl Pool {
    // Who holds the permit.
    pub fn holder_of(&self, permit: Permit) -> Option<Flat>
        ensures { result ≡ holder_of self.now permit }
    {
        self.holders[permit.number as usize - 1].flat()
    }

    pub fn is_free(&self, permit: Permit) -> bool
        ensures { result ≡ free? self.now permit }
    {
        self.holder_of(permit).is_none()
    }

    // How many permits are held.
    pub fn held(&self) -> u32
        ensures { result ≡ count_of self.now }
    {
        self.holders.iter().filter(|h| h.flat().is_some()).count() as u32
    }
}
