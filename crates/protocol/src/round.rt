// A round (in the field: a ballot).
ghost use Rattle.std.specs.Prelude.{◌^◌, ◌≤◌};

// The number n orders rounds; the hub and its attempt say who made this one. The first round, in
// which nothing was written yet, is (0, 0, 0).
#[derive(Clone, Copy, PartialEq, Eq)]
pub struct Round {
    pub n: u64,
    pub hub: u8,
    pub attempt: u64,
    ghost n_within: { n ≤ 2 ^ 40 },
    ghost hub_within: { hub ≤ 15 },
    ghost attempt_within: { attempt ≤ 2 ^ 40 },
}
