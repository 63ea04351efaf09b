// Numbers in decimal digits.
ghost use Rattle.std.specs.Prelude.{◌≡◌, ◌^◌, min, IsTrue, ◌↔◌, MatchOption};
ghost use Rattle.fields.specs.Numerals.{StartsWell, Numeral, number};

// Far above every number of a line: a greater one, however long, is read as this one.
pub const CAP: u64 = 1 << 50;

// One byte or more, and no zero in front of others.
fn starts_well(field: &[u8]) -> bool
    ensures { IsTrue result ↔ StartsWell field.now }
{
    !matches!(field, [] | [b'0', _, ..])
}

// The number that a field writes; none where the field is no number.
// Not str::parse: that takes a sign and leading zeros, and fails above u64, where a line may have any
// number of digits.
pub(crate) fn number_of(field: &[u8]) -> Option<u64>
    ensures { MatchOption result (Numeral field.now → ⊥) (λ n. Numeral field.now × (n ≡ min (number field.now) (2 ^ 50))) }
{
    if !starts_well(field) {
        return None;
    }
    let mut n: u64 = 0;
    for &b in field {
        if !b.is_ascii_digit() {
            return None;
        }
        n = (n * 10 + u64::from(b - b'0')).min(CAP);
    }
    Some(n)
}
