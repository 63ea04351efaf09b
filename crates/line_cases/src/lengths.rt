// Long lines and long numbers.
use crate::faults::refused;
use std::test::Fail;

// A line F of so many bytes, whose n is as many digits as there is room for.
fn long_line(length: usize) -> [u8; 1025] {
    let mut line = [b'9'; 1025];
    line[..8].copy_from_slice(b"F\t3\t1\t5\t");
    if 8 < length && length <= 1025 {
        line[length - 1] = b'\n';
    }
    line
}

#[test]
fn numbers_may_have_any_length(rt: HostRuntime) -> Result<(), Fail> {
    // 20 digits, 900 digits, and all that a line has room for
    refused(&rt, &long_line(29)[0..29], 14, 8)?;
    refused(&rt, &long_line(909)[0..909], 14, 8)?;
    refused(&rt, &long_line(1024)[0..1024], 14, 8)
}

#[test]
fn no_line_is_longer_than_1024_bytes(rt: HostRuntime) -> Result<(), Fail> {
    refused(&rt, &long_line(1025)[0..1025], 10, 0)?;
    refused(&rt, &long_line(1025)[0..1024], 10, 0)
}
