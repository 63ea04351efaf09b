// The fields of a line as tokens that borrow its bytes.
ghost use Rattle.fields.specs.Tokens.{Says};
ghost use Rattle.fields.specs.Props.{says_prop};

// A field is a number, one byte that is no digit, or neither. Not an Option of the first two: what reads a
// token would match it no more plainly.
#[derive(Clone, Copy)]
pub enum TokenKind {
    Letter(u8),
    Number(u64),
    Bad,
}

// The bytes of one field, the offset in the line where they begin, and what they are.
#[derive(Clone, Copy)]
pub struct Token<'a> {
    pub bytes: &'a [u8],
    pub at: usize,
    pub kind: TokenKind,
    ghost says: { Says bytes.now kind } by { says_prop bytes.now kind },
}
