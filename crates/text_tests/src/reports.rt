//! A worked report, with a put that fails, and pieces of output.
use crate::asserting::assert_same;
use crate::sinks::sink_of;
use byte_ram::Ram;
use report_text::{write_piece, write_report};
use rv_types::{End, Ending, Piece, Width};
use std::alloc::Global;
use std::process::Abort;
use std::test::Fail;
use tool_io::{Failed, MemSink};

// The report of the worked program that stores two words in memory's last row.
const REPORT: &str = "\
x0 00000000\n\
x1 00000000\n\
x2 0001fff0\n\
x3 00000000\n\
x4 00000000\n\
x5 ffffffff\n\
x6 0000ffff\n\
x7 ffffffff\n\
x8 00000000\n\
x9 00000001\n\
x10 00000000\n\
x11 00000000\n\
x12 00000000\n\
x13 00000000\n\
x14 00000000\n\
x15 00000000\n\
x16 00000000\n\
x17 0000005d\n\
x18 00000000\n\
x19 00000000\n\
x20 00000000\n\
x21 00000000\n\
x22 00000000\n\
x23 00000000\n\
x24 00000000\n\
x25 00000000\n\
x26 00000000\n\
x27 00000000\n\
x28 00000000\n\
x29 00000000\n\
x30 00000000\n\
x31 00000000\n\
pc 00010020\n\
mem 0001fff0 ffff0000ffffffff0000000000000000\n\
end exit 0 retired 8 cycles 27\n";

// The registers of that report.
const REGISTERS: [u32; 32] = [
    0,
    0,
    0x0001_fff0,
    0,
    0,
    0xffff_ffff,
    0x0000_ffff,
    0xffff_ffff,
    0,
    1,
    0,
    0,
    0,
    0,
    0,
    0,
    0,
    0x5d,
    0,
    0,
    0,
    0,
    0,
    0,
    0,
    0,
    0,
    0,
    0,
    0,
    0,
    0,
];

const ENDING: Ending = Ending {
    end: Some(End::Exit(0)),
    retired: 8,
    cycles: Some(27),
};

// Writes that report into a sink.
fn write(rt: &impl Abort, alloc: Global, out: &mut MemSink) -> Result<Result<(), Failed>, Fail> {
    let before = Ram::new(alloc, 0x0001_0000, 0x0001_0000, false)?;
    let mut after = Ram::new(alloc, 0x0001_0000, 0x0001_0000, false)?;
    let _ = after.put(0x0001_fff0, Width::W, 0x0000_ffff);
    let _ = after.put(0x0001_fff4, Width::W, 0xffff_ffff);
    assert!(rt; before.base() == after.base() && before.size() == after.size());
    Ok(write_report(&REGISTERS, 0x0001_0020, &before, &after, &ENDING, out))
}

// The put that fails after two bytes, or 0, the answer, and how many bytes of the report are there: of the first and
// the second register, the pc, the row of memory, the last line, and of the whole.
const PUTS: [(u64, Result<(), Failed>, usize); 6] = [
    (1, Err(Failed), 2),
    (2, Err(Failed), 14),
    (33, Err(Failed), 408),
    (34, Err(Failed), 420),
    (35, Err(Failed), 466),
    (0, Ok(()), REPORT.len()),
];

#[test]
fn a_report_and_puts_that_fail(rt: HostRuntime) -> Result<(), Fail> {
    let alloc = rt.alloc();
    for &(put, wanted, sent) in &PUTS {
        let mut out = sink_of(alloc, 1000, put)?;
        let answer = write(&rt, alloc, &mut out)?;
        assert_same(&rt, &(put, answer), &(put, wanted));
        assert_same(&rt, &Some(out.as_slice()), &REPORT.as_bytes().get(..sent));
    }
    Ok(())
}

// The bytes of a piece, and the line.
const PIECES: [(&[u8], &str); 2] = [(b"", ""), (&[0x0a, 0xf1], "out 0af1\n")];

#[test]
fn pieces_of_output(rt: HostRuntime) -> Result<(), Fail> {
    let alloc = rt.alloc();
    let mut out = sink_of(alloc, 3000, 0)?;
    for &(bytes, wanted) in &PIECES {
        assert!(rt; bytes.len() <= 1024);
        let mut piece = Piece::new();
        piece.extend(bytes);
        let mut out = sink_of(alloc, 3000, 0)?;
        assert_same(&rt, &write_piece(&piece, &mut out), &Ok(()));
        assert_same(&rt, &out.as_slice(), &wanted.as_bytes());
    }
    let mut longest = Piece::new();
    longest.extend(&[0; 1024]);
    assert_same(&rt, &write_piece(&longest, &mut out), &Ok(()));
    assert_same(&rt, &out.as_slice().len(), &(4 + 2048 + 1));
    Ok(())
}
