// Faulty lines, each with the number of its fault and the offset where it is.
use kinds::meter::Meter;
use lines::line::read;
use protocol::refusal::Reason;
use std::process::Abort;
use std::test::Fail;

const CASES: [(&[u8], u8, usize); 39] = [
    (b"", 10, 0),
    (b"\n\n", 10, 0),
    (b"P\t0\t1\t1\tr", 10, 0),
    (b"P\t0\t1\t1\tr\nP\t0\t1\t1\tr\n", 10, 0),
    (b"P\t0\t1\t1\tr\n\n", 10, 0),
    (b"\n", 11, 0),
    (b"Q\n", 11, 0),
    (b"X\t3\n", 11, 0),
    (b"p\t0\t1\t1\tr\n", 11, 0),
    (b"PP\t0\t1\t1\tr\n", 11, 0),
    (b"7\t0\t1\t1\tr\n", 11, 0),
    (b"\tP\t0\t1\t1\tr\n", 11, 0),
    (b"\xd0\t0\t1\t1\tr\n", 11, 0),
    (b"\0\t0\t1\t1\tr\n", 11, 0),
    (b"P\n", 12, 1),
    (b"P\t0\t1\t1\n", 12, 7),
    (b"F\t3\t1\t5\n", 12, 7),
    (b"V\t3\t1\t5\t7\n", 12, 9),
    (b"A\t0\t1\t1\t0\t1\t1\t0\t0\t0\n", 12, 19),
    (b"P\t0\t1\t1\tr\tr\n", 12, 10),
    (b"F\t3\t1\t5\t7\t\n", 12, 10),
    (b"D\t3\t1\t5\t6\t7\t8\n", 12, 12),
    (b"P\t\t1\t1\tr\n", 13, 2),
    (b"P\t0\t1\t1\t\n", 13, 8),
    (b"P\t0\t1\t1\tx\n", 13, 8),
    (b"P\t0\t1\t1\trw\n", 13, 8),
    (b"P\t0\t1\t1\t0\n", 13, 8),
    (b"F\t3\t01\t5\t7\n", 13, 4),
    (b"F\t3\t1\t+5\t7\n", 13, 6),
    (b"F\t3\t1\t5\t-7\n", 13, 8),
    (b"F\t3\t1\t5\t7 \n", 13, 8),
    (b"F\t3\t1\t5\t\xb9\n", 13, 8),
    (b"F\t64\t1\t5\t7\n", 14, 2),
    (b"F\t3\t0\t5\t7\n", 14, 4),
    (b"F\t3\t16\t5\t7\n", 14, 4),
    (b"F\t3\t1\t0\t7\n", 14, 6),
    (b"V\t3\t1\t5\t1099511627777\t7\n", 14, 8),
    (b"V\t3\t1\t5\t7\t4000000001\n", 14, 10),
    (b"A\t3\t1\t5\t6\t1\t0\t0\t0\t0\t9\n", 14, 12),
];

// The line is refused with this number, at this offset.
pub fn refused(rt: &impl Abort, line: &[u8], number: u8, at: usize) -> Result<(), Fail> {
    let fault = read::<Meter>(line).err();
    let told = fault.map(|fault| (u8::from(Reason::from(fault)), fault.at));
    assert_eq!(rt; told, Some((number, at)));
    Ok(())
}

#[test]
fn each_fault_has_its_number_and_offset(rt: HostRuntime) -> Result<(), Fail> {
    for (line, number, at) in CASES {
        refused(&rt, line, number, at)?;
    }
    Ok(())
}
