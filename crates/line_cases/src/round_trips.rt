// Lines that are read as messages and written back, byte for byte.
use kinds::meter::Meter;
use lines::line::{read, write};
use std::process::Abort;
use std::test::Fail;

const LINES: [&[u8]; 8] = [
    b"P\t0\t1\t1\tr\n",
    b"P\t63\t15\t1099511627776\tw\n",
    b"F\t63\t15\t1099511627776\t1\n",
    b"V\t3\t1\t5\t1099511627776\t4000000000\n",
    b"V\t3\t1\t5\t1\t0\n",
    b"A\t3\t1\t5\t6\t1\t1\t0\t0\t0\t9\n",
    b"A\t3\t1\t5\t0\t0\t0\t1099511627776\t15\t1099511627776\t4000000000\n",
    b"D\t3\t1\t5\t6\t10\n",
];

fn back(rt: &impl Abort, line: &[u8]) -> Result<(), Fail> {
    let mut out = [0; 80];
    let message = read::<Meter>(line)?;
    let n = write(&message, &mut out)?;
    assert_eq!(rt; n, line.len());
    assert_eq!(rt; out.get(..n), Some(line));
    Ok(())
}

#[test]
fn each_line_is_written_as_it_was_read(rt: HostRuntime) -> Result<(), Fail> {
    for line in LINES {
        back(&rt, line)?;
    }
    Ok(())
}

#[test]
fn a_line_needs_its_room(rt: HostRuntime) -> Result<(), Fail> {
    let message = read::<Meter>(b"D\t3\t1\t5\t6\t10\n")?;
    let mut out = [7; 13];
    assert!(rt; write(&message, &mut out[0..12]).is_err());
    assert!(rt; out[0] == 7 && out[11] == 7);
    assert_eq!(rt; write(&message, &mut out)?, 13);
    Ok(())
}
