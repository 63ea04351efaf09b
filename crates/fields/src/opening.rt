// Cuts a line: is it framed, where does a field end, and what is the field.
ghost use Rattle.std.specs.Prelude.{◌≡◌, ℕ, ◌<◌, ◌≤◌, length, IsTrue, ◌↔◌, MatchResult, slice_index};
ghost use Rattle.fields.specs.Cuts.{Mark, Framed};
ghost use Rattle.fields.specs.Readers.{Opening, Opened, Unframed};
ghost use Rattle.fields.specs.Tokens.{Says};

use crate::buffer::LONGEST;
use crate::fault::{Fault, FaultKind};
use crate::numeral::number_of;
use crate::reader::Reader;
use crate::token::{Token, TokenKind};

// At most 1,024 bytes, of which the last is the only line feed.
fn framed(line: &[u8]) -> bool
    ensures { IsTrue result ↔ Framed line.now }
{
    match line.split_last() {
        Some((b'\n', rest)) => rest.len() < LONGEST && !rest.contains(&b'\n'),
        _ => false,
    }
}

// Where the field that begins at `from` ends: at the next tab or line feed. A place and no slice goes in, as
// a place comes out.
pub(crate) fn field_end(line: &[u8], from: usize) -> usize
    requires { from ≤ length line.now }
    ensures after { from ≤ result }
    ensures within { result ≤ length line.now }
    ensures plain { (i : ℕ) → from ≤ i → i < result → Mark (slice_index line.now i) → ⊥ }
    ensures stops { result < length line.now → Mark (slice_index line.now result) }
{
    let rest = &line[from..];
    from + rest
        .iter()
        .position(|b| matches!(*b, b'\t' | b'\n'))
        .unwrap_or(rest.len())
}

// What these bytes of a field are. A match, as each of the three kinds is named.
fn kind_of(bytes: &[u8]) -> TokenKind
    ensures { Says bytes.now result }
{
    match (number_of(bytes), bytes) {
        (Some(n), _) => TokenKind::Number(n),
        (None, [letter]) => TokenKind::Letter(*letter),
        (None, _) => TokenKind::Bad,
    }
}

// What the field is whose bytes begin at the offset `at`.
pub fn token_of(bytes: &[u8], at: usize) -> Token<'_>
    ensures bytes { result.bytes.now ≡ bytes.now }
    ensures at { result.at ≡ at }
{
    let kind = kind_of(bytes);
    Token { bytes, at, kind }
}

// The end of the first field; refuses a line that is too long or not closed by its only line feed.
pub fn first_end(line: &[u8]) -> Result<usize, Fault>
    ensures { Opening line.now result }
{
    if !framed(line) {
        return Err(Fault {
            kind: FaultKind::Frame,
            at: 0,
        });
    }
    Ok(field_end(line, 0))
}

impl<'a> Reader<'a> {
    // The first field of a line, and a reader that stands behind it; refuses what is no framed line.
    pub fn open(line: &'a [u8]) -> Result<(Token<'a>, Reader<'a>), Fault>
        ensures { MatchResult result (λ p. Opened line.now p.0 p.1) (λ e. Unframed line.now e) }
    {
        let at = first_end(line)?;
        let first = token_of(&line[..at], 0);
        Ok((first, Reader { line, at }))
    }
}
