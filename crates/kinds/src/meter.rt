// A meter: a total that grows.
ghost use Rattle.std.specs.Prelude.{◌≤◌};

pub mod rules;

#[derive(Clone, Copy, PartialEq, Eq)]
pub struct Meter {
    pub total: u32,
    ghost within: { total ≤ 4000000000 },
}

// The command of a meter: add this amount.
#[derive(Clone, Copy)]
pub struct Add {
    pub amount: u32,
}
