// What comes of a command, for any kind.
use protocol::kind::{Applied, Kind};
use std::test::*;

// The command is carried: the value becomes the new one, and this is the answer.
pub fn carried<K: Kind>(value: &mut K, command: &K::Command) -> Result<u32, Fail> {
    match value.apply(command)? {
        Applied::Carried(next, answer) => {
            *value = next;
            Ok(answer)
        }
        Applied::Already(_) => Err(Fail::new("carried already")),
    }
}

// The command was carried already, with this answer.
pub fn already<K: Kind>(value: &K, command: &K::Command) -> Result<u32, Fail> {
    match value.apply(command)? {
        Applied::Already(answer) => Ok(answer),
        Applied::Carried(_, _) => Err(Fail::new("carried")),
    }
}

// The number with which the command is denied, if it is.
pub fn denied<K: Kind>(value: &K, command: &K::Command) -> Option<u8> {
    value.apply(command).err().map(u8::from)
}
