// How many keepers hold the registers together, and how many of them make a majority.
ghost use Rattle.std.specs.Prelude.{◌≡◌};
ghost use Rattle.protocol.specs.Groups.{keepers_in, majority_of, group_of};

use crate::refusal::OutOfRange;

// The keepers of a group are an odd number, so that half of them, rounded up, is a majority.
#[derive(Clone, Copy, PartialEq, Eq, Debug)]
pub enum GroupSize {
    Three = 3,
    Five = 5,
    Seven = 7,
}

// The group of so many keepers. Three cases again: to look for the one with this number is no plainer.
impl TryFrom<u8> for GroupSize {
    type Error = OutOfRange;

    ghost try_from_gives = { λ keepers r. r ≡ group_of keepers };

    fn try_from(keepers: u8) -> Result<GroupSize, OutOfRange> {
        match keepers {
            3 => Ok(GroupSize::Three),
            5 => Ok(GroupSize::Five),
            7 => Ok(GroupSize::Seven),
            _ => Err(OutOfRange {}),
        }
    }
}

impl GroupSize {
    pub fn keepers(self) -> u8
        ensures { result ≡ keepers_in self }
    {
        self as u8
    }

    pub fn majority(self) -> u8
        ensures { result ≡ majority_of self }
    {
        (self.keepers() + 1) / 2
    }
}
