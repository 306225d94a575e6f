//! Each event once, the longest line, and a put that fails.
use crate::asserting::assert_same;
use crate::sinks::sink_of;
use line_text::Draft;
use std::test::Fail;
use tool_io::{Failed, MemSink};
use trace_text::{write_row, write_row_with};
use window_model::{Event, Look, Way, empty_row};

// An event of cycle 7, and its line.
const EVENTS: [(Event, &str); 29] = [
    (Event::Fill(0x0001_fff0), "7 fill:0001fff0\n"),
    (Event::Done(0), "7 done:0\n"),
    (Event::Res(2, Way::Taken), "7 res:2:T\n"),
    (Event::Res(2, Way::NotTaken), "7 res:2:N\n"),
    (Event::Res(0, Way::Jump), "7 res:0:J\n"),
    (Event::Bp(15, 3), "7 bp:15:3\n"),
    (
        Event::Bt(4294967295, 0xfedc_ba98),
        "7 bt:4294967295:fedcba98\n",
    ),
    (Event::Sq(7), "7 sq:7\n"),
    (Event::Clr(2), "7 clr:2\n"),
    (Event::Vio(3), "7 vio:3\n"),
    (Event::Dp(1023, 1), "7 dp:1023:1\n"),
    (Event::Ret(3), "7 ret:3\n"),
    (Event::St(2, 0x0001_fff0, true), "7 st:2:0001fff0:h\n"),
    (Event::St(2, 0x0001_fff0, false), "7 st:2:0001fff0:m\n"),
    (
        Event::Call(u64::MAX, 4294967295),
        "7 call:18446744073709551615:4294967295\n",
    ),
    (Event::Alu(4), "7 alu:4\n"),
    (Event::Mul(1), "7 mul:1\n"),
    (Event::Div(0, 35), "7 div:0:35\n"),
    (Event::Agu(5), "7 agu:5\n"),
    (Event::Std(5), "7 std:5\n"),
    (Event::Ld(6, 0x0001_fff0, Look::Hit), "7 ld:6:0001fff0:h\n"),
    (Event::Ld(6, 0x0001_fff0, Look::Join), "7 ld:6:0001fff0:j\n"),
    (
        Event::Ld(6, 0x0001_fff0, Look::Second),
        "7 ld:6:0001fff0:2\n",
    ),
    (Event::LdForward(6), "7 ld:6:f\n"),
    (Event::LdFault(1), "7 ld:1:x\n"),
    (Event::Pf(0x0001_fff0, Look::Miss), "7 pf:0001fff0:m\n"),
    (Event::Pf(0x0000_0010, Look::Second), "7 pf:00000010:2\n"),
    (Event::Ren(8, 0x0001_001c), "7 ren:8:0001001c\n"),
    (Event::Fet(0x0001_0020), "7 fet:00010020\n"),
];

// The line of one event of a cycle.
fn write(cycle: u32, event: Event, out: &mut MemSink) -> Result<(), Failed> {
    let mut row = empty_row();
    row.begin(cycle);
    row.push(event);
    write_row(&row, out)
}

#[test]
fn events(rt: HostRuntime) -> Result<(), Fail> {
    let alloc = rt.alloc();
    for &(event, wanted) in &EVENTS {
        let mut out = sink_of(alloc, 100, 0)?;
        assert_same(&rt, &write(7, event, &mut out), &Ok(()));
        assert_same(&rt, &out.as_slice(), &wanted.as_bytes());
    }
    Ok(())
}

#[test]
fn a_put_that_fails(rt: HostRuntime) -> Result<(), Fail> {
    let mut out = sink_of(rt.alloc(), 100, 1)?;
    assert_same(&rt, &write(26, Event::Ret(5), &mut out), &Err(Failed));
    assert_same(&rt, &out.as_slice(), &b"26".as_slice());
    Ok(())
}

// A row with as many events as there may be takes 10 bytes for its number, 37 for each event, and its end; then another
// line is written on the same draft.
#[test]
fn the_longest_line(rt: HostRuntime) -> Result<(), Fail> {
    let mut row = empty_row();
    row.begin(4294967295);
    for _ in 0..256 {
        if row.events().len() < 256 {
            row.push(Event::Call(u64::MAX, 4294967295));
        }
    }
    let mut draft = Draft::new();
    let mut out = sink_of(rt.alloc(), 10000, 0)?;
    assert_same(&rt, &write_row_with(&row, &mut draft, &mut out), &Ok(()));
    row.begin(8);
    assert_same(&rt, &write_row_with(&row, &mut draft, &mut out), &Ok(()));
    let text = out.as_slice();
    assert_same(&rt, &text.len(), &(10 + 256 * 37 + 1 + 2));
    let end = b" call:18446744073709551615:4294967295\n8\n".as_slice();
    assert!(rt; text.starts_with(b"4294967295 call:") && text.ends_with(end));
    Ok(())
}
