// What holds of every list of carried commands.
ghost use Rattle.kinds.specs.Grants.{GivenBackBetween};

// Between two grants of one permit stands a give-back of it by the flat that had it.
pub fn no_permit_is_granted_twice()
    ensures { GivenBackBetween }
{}
