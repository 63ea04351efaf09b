// A line that is being written.
ghost use Rattle.std.specs.Prelude.{◌≡◌, ◌≤◌, length};

// The longest line, with its line feed.
pub const LONGEST: usize = 1024;

// The bytes written so far and how many they are. What is written past the longest line is not kept,
// and the count then stays one above it. An array and no Vec: the memory is fixed, none on the heap.
// No ArrayVec either: it cannot be copied, and counts nothing past its end.
#[derive(Clone, Copy)]
pub struct Buffer {
    pub bytes: [u8; 1024],
    pub count: usize,
    ghost whole: { length bytes ≡ 1024 },
    ghost within: { count ≤ 1025 },
}

// A line does not fit where it was to be written, or is longer than any line.
#[derive(Clone, Copy, PartialEq, Eq, Debug)]
pub struct TooLong {}
