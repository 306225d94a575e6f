//! Reads and writes in all widths, at both ends of memory and past them.
use crate::asserting::assert_same;
use byte_ram::Ram;
use rv_types::Width;
use std::alloc::Global;
use std::process::Abort;
use std::test::Fail;

const BASE: u32 = 65536;

const SIZE: u32 = 64;

// An access: its address and width, the value that is put or none of a read; the value read, 0 of a put, or the number
// of the manual's cause: 4 and 6 misaligned, 5 and 7 outside, of a load and a store.
type Access = (u32, Width, Option<u32>, Result<u32, u8>);

// Where an address has to be a multiple of the width.
static ALIGNED: [Access; 17] = [
    (BASE + 60, Width::W, Some(0x8877_6655), Ok(0)),
    (BASE, Width::H, Some(0xffff_4321), Ok(0)),
    (BASE + 3, Width::B, Some(0x1_00fe), Ok(0)),
    (0, Width::B, Some(0), Err(7)),
    (3, Width::W, Some(0), Err(6)),
    (BASE + 60, Width::W, None, Ok(0x8877_6655)),
    (BASE + 62, Width::H, None, Ok(0x8877)),
    (BASE + 63, Width::B, None, Ok(0x88)),
    (BASE, Width::W, None, Ok(0xfe00_4321)),
    (BASE + 4, Width::W, None, Ok(0)),
    (BASE + 64, Width::B, None, Err(5)),
    (BASE + 64, Width::W, None, Err(5)),
    (BASE + 62, Width::W, None, Err(4)),
    (BASE + 1, Width::H, None, Err(4)),
    (0, Width::W, None, Err(5)),
    (1, Width::W, None, Err(4)),
    (u32::MAX, Width::B, None, Err(5)),
];

// Where it may be any.
static ANY: [Access; 4] = [
    (BASE + 13, Width::W, Some(0x8877_6655), Ok(0)),
    (BASE + 15, Width::H, None, Ok(0x8877)),
    (BASE + 62, Width::W, None, Err(5)),
    (BASE - 1, Width::H, Some(0), Err(7)),
];

fn answer(ram: &mut Ram, addr: u32, width: Width, put: Option<u32>) -> Result<u32, u8> {
    let done = match put {
        Some(value) => match ram.put(addr, width, value) {
            Ok(()) => Ok(0),
            Err(cause) => Err(cause),
        },
        None => ram.get(addr, width),
    };
    match done {
        Ok(value) => Ok(value),
        Err(cause) => Err(cause.number),
    }
}

// Memory after these accesses, each of which has its answer.
fn after(
    rt: &impl Abort,
    alloc: Global,
    misaligned: bool,
    accesses: &[Access],
) -> Result<Ram, Fail> {
    let mut ram = Ram::new(alloc, BASE, SIZE, misaligned)?;
    for &(addr, width, put, wanted) in accesses {
        let got = answer(&mut ram, addr, width, put);
        assert_same(rt, &(addr, width, got), &(addr, width, wanted));
    }
    Ok(ram)
}

#[test]
fn reads_what_was_written(rt: HostRuntime) -> Result<(), Fail> {
    let alloc = rt.alloc();
    let ram = after(&rt, alloc, false, &ALIGNED)?;
    assert_same(
        &rt,
        &(ram.byte(BASE + 3), ram.byte(BASE + SIZE)),
        &(Some(0xfe), None),
    );
    let copy = ram.copy(alloc)?;
    assert_same(&rt, &copy.bytes(), &ram.bytes());
    after(&rt, alloc, true, &ANY)?;
    Ok(())
}
