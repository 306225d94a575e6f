//! Images as a linker writes them, each fault once, segments that overlap; the smallest and the largest generated
//! image. The file of the first program and the faults of its changed forms are those of `docs/formats.md`, "Images".
use crate::asserting::assert_same;
use byte_ram::Ram;
use elf_loader::{ElfFault, Image, load, segments};
use gen_image::generate;
use std::alloc::Global;
use std::process::Abort;
use std::test::Fail;

const BASE: u32 = 65536;

const SIZE: u32 = 64;

// Two instructions at address 65536: `addi x17,x0,93` and `ecall`.
static FIRST: [u8; 92] = [
    0x7f, 0x45, 0x4c, 0x46, 1, 1, 1, 0, 0, 0, 0, 0, 0, 0, 0, 0, 2, 0, 0xf3, 0, 1, 0, 0, 0, 0, 0, 1,
    0, 0x34, 0, 0, 0, 0, 0, 0, 0, 0, 0, 0, 0, 0x34, 0, 0x20, 0, 1, 0, 0, 0, 0, 0, 0, 0, 1, 0, 0, 0,
    0x54, 0, 0, 0, 0, 0, 1, 0, 0, 0, 1, 0, 8, 0, 0, 0, 8, 0, 0, 0, 5, 0, 0, 0, 4, 0, 0, 0, 0x93,
    0x08, 0xd0, 0x05, 0x73, 0, 0, 0,
];

// A file with four segments: the second lies over the first, with bytes 0 past those of the file, the third takes no
// memory, the fourth begins at an address that is no multiple of 4.
static FOUR: [&[u8]; 7] = [
    // the header of the first program, up to the number of program headers
    &[
        0x7f, 0x45, 0x4c, 0x46, 1, 1, 1, 0, 0, 0, 0, 0, 0, 0, 0, 0, 2, 0, 0xf3, 0, 1, 0, 0, 0, 0,
        0, 1, 0, 0x34, 0, 0, 0, 0, 0, 0, 0, 0, 0, 0, 0, 0x34, 0, 0x20, 0,
    ],
    &[4, 0, 0, 0, 0, 0, 0, 0],
    // each segment: 1, its place in the file, its address twice, its sizes in the file and in memory, its flags, 4
    &[
        1, 0, 0, 0, 180, 0, 0, 0, 0, 0, 1, 0, 0, 0, 1, 0, 8, 0, 0, 0, 8, 0, 0, 0, 5, 0, 0, 0, 4, 0,
        0, 0,
    ],
    &[
        1, 0, 0, 0, 188, 0, 0, 0, 4, 0, 1, 0, 4, 0, 1, 0, 2, 0, 0, 0, 7, 0, 0, 0, 6, 0, 0, 0, 4, 0,
        0, 0,
    ],
    &[
        1, 0, 0, 0, 0, 0, 0, 0, 3, 0, 0, 0, 3, 0, 0, 0, 0, 0, 0, 0, 0, 0, 0, 0, 7, 0, 0, 0, 4, 0,
        0, 0,
    ],
    &[
        1, 0, 0, 0, 190, 0, 0, 0, 18, 0, 1, 0, 18, 0, 1, 0, 12, 0, 0, 0, 14, 0, 0, 0, 0xf5, 0, 0,
        0, 4, 0, 0, 0,
    ],
    // the bytes of the first, the second and the fourth
    &[
        1, 2, 3, 4, 5, 6, 7, 8, 0xaa, 0xbb, 10, 11, 12, 13, 14, 15, 16, 17, 18, 19, 20, 21,
    ],
];

// How many bytes of the first program's file there are, the bytes in the place of those from a place on, and the fault.
static FAULTS: [(usize, usize, &[u8], Option<ElfFault>); 25] = [
    (51, 0, &[], Some(ElfFault::Short(52, 51))),
    (60, 0, &[], Some(ElfFault::TableOutside(84, 60))),
    (88, 0, &[], Some(ElfFault::FileOutside(0))),
    (92, 0, &[0x7f], None),
    (92, 3, &[0, 2], Some(ElfFault::Magic)),
    (92, 4, &[2, 2], Some(ElfFault::Class(2))),
    (92, 5, &[2, 0], Some(ElfFault::Data(2))),
    (92, 6, &[0], Some(ElfFault::Version(0))),
    (92, 16, &[3, 1, 3], Some(ElfFault::FileType(259))),
    (92, 18, &[3, 0], Some(ElfFault::Machine(3))),
    (
        92,
        36,
        &[1, 0, 0, 0, 0x34, 0, 40],
        Some(ElfFault::Compressed(1)),
    ),
    (92, 36, &[0xfe, 0xff, 0xff, 0xff], None),
    (92, 42, &[40], Some(ElfFault::EntrySize(40))),
    (92, 42, &[40, 0, 0], None),
    (
        92,
        28,
        &[255, 255, 255, 255],
        Some(ElfFault::TableOutside(4_294_967_327, 92)),
    ),
    (
        92,
        44,
        &[255, 255],
        Some(ElfFault::TableOutside(2_097_172, 92)),
    ),
    (92, 52, &[3], Some(ElfFault::Interp(0))),
    (92, 52, &[2, 0, 0, 0, 255, 255, 255, 255], None),
    (92, 72, &[7], Some(ElfFault::SegmentSize(0))),
    (92, 56, &[0x55], Some(ElfFault::FileOutside(0))),
    (
        92,
        56,
        &[0xfc, 255, 255, 255],
        Some(ElfFault::FileOutside(0)),
    ),
    (92, 60, &[0xff, 0xff, 0], Some(ElfFault::RamOutside(0))),
    (92, 60, &[0x39], Some(ElfFault::RamOutside(0))),
    (
        92,
        60,
        &[0xfc, 255, 255, 255],
        Some(ElfFault::RamOutside(0)),
    ),
    (
        92,
        60,
        &[0xfc, 255, 255, 255, 0, 0, 0, 0, 0, 0, 0, 0, 0, 0, 0, 0],
        None,
    ),
];

// The image of a file in a small memory, or its fault.
fn loaded(alloc: Global, file: &[u8]) -> Result<Image, ElfFault> {
    let segments = segments(file)?;
    match Ram::new(alloc, BASE, SIZE, false) {
        Ok(ram) => load(alloc, &segments, ram),
        Err(_) => Err(ElfFault::NoMemory),
    }
}

fn fault_of(alloc: Global, file: &[u8]) -> Option<ElfFault> {
    match loaded(alloc, file) {
        Ok(_) => None,
        Err(fault) => Some(fault),
    }
}

// The first bytes of the first program's file, as many as are asked for, with other bytes written over them from a
// place on.
fn changed(alloc: Global, size: usize, at: usize, new: &[u8]) -> Result<Vec<u8>, Fail> {
    let mut file = Vec::new(alloc);
    for (i, byte) in FIRST.iter().enumerate() {
        if i < size {
            let place = i.checked_sub(at);
            let other = place.and_then(|place| new.get(place).copied());
            file.push(other.unwrap_or(*byte))?;
        }
    }
    Ok(file)
}

#[test]
fn refuses_by_the_first_fault(rt: HostRuntime) -> Result<(), Fail> {
    let alloc = rt.alloc();
    for &(size, at, new, wanted) in &FAULTS {
        let file = changed(alloc, size, at, new)?;
        let fault = fault_of(alloc, file.as_slice());
        assert_same(&rt, &(size, at, new, fault), &(size, at, new, wanted));
    }
    Ok(())
}

// An address and the word that may be fetched there.
type Word = (u32, Option<u32>);

static FIRST_WORDS: [Word; 6] = [
    (BASE, Some(0x05d0_0893)),
    (BASE + 4, Some(0x73)),
    (BASE + 8, None),
    (BASE + 2, None),
    (BASE - 4, None),
    (BASE + SIZE, None),
];

static FOUR_WORDS: [Word; 7] = [
    (BASE, Some(0x0403_0201)),
    (BASE + 4, Some(0xbbaa)),
    (BASE + 8, None),
    (BASE + 16, None),
    (BASE + 20, Some(0x0f0e_0d0c)),
    (BASE + 24, Some(0x1312_1110)),
    (BASE + 28, None),
];

// The image of this file has these first bytes, and these words may be fetched; fetch begins at the base.
fn expect(
    rt: &impl Abort,
    alloc: Global,
    file: &[u8],
    bytes: &[u8],
    words: &[Word],
) -> Result<(), Fail> {
    let image = loaded(alloc, file)?;
    assert_same(rt, &image.entry, &BASE);
    assert_same(rt, &image.ram.bytes().get(..bytes.len()), &Some(bytes));
    for &(pc, wanted) in words {
        assert_same(rt, &(pc, image.code.word(pc)), &(pc, wanted));
    }
    Ok(())
}

#[test]
fn images_of_files(rt: HostRuntime) -> Result<(), Fail> {
    let alloc = rt.alloc();
    let first = [0x93, 0x08, 0xd0, 0x05, 0x73, 0, 0, 0];
    expect(&rt, alloc, &FIRST, &first, &FIRST_WORDS)?;
    let mut file = Vec::new(alloc);
    for &part in &FOUR {
        file.extend_from_slice(part)?;
    }
    let four = [
        1, 2, 3, 4, 0xaa, 0xbb, 0, 0, 0, 0, 0, 0, 0, 0, 0, 0, 0, 0, 10, 11, 12, 13, 14, 15, 16, 17,
        18, 19, 20, 21, 0, 0,
    ];
    expect(&rt, alloc, file.as_slice(), &four, &FOUR_WORDS)
}

#[test]
fn segments_of_a_file(rt: HostRuntime) -> Result<(), Fail> {
    let file = segments(&FIRST)?;
    assert_same(&rt, &(file.entry(), file.count()), &(BASE, 1));
    let part = file.at(0).ok_or("no segment")?;
    assert_same(&rt, &(part.vaddr, part.memsz, part.flags), &(BASE, 8, 5));
    assert_same(&rt, &Some(part.bytes), &FIRST.get(84..));
    assert!(rt; file.at(1).is_none());
    Ok(())
}

// One block of seed 1, by the rules of `docs/formats.md`, "Generated images".
static ONE_BLOCK: [u32; 9] = [
    0xc001_0413,
    0x0040_0493,
    0x1f84_2283,
    0x0053_0333,
    0xfff4_8493,
    0x0004_8463,
    0xff1f_f06f,
    0x05d0_0893,
    0x0000_0073,
];

#[test]
fn generated_images(rt: HostRuntime) -> Result<(), Fail> {
    let alloc = rt.alloc();
    let smallest = generate(alloc, 1, 1)?;
    assert_same(&rt, &smallest.len(), &120);
    let image = loaded(alloc, smallest.as_slice())?;
    let mut pc = image.entry;
    for &word in &ONE_BLOCK {
        assert_same(&rt, &(pc, image.code.word(pc)), &(pc, Some(word)));
        pc = pc.wrapping_add(4);
    }
    let largest = generate(alloc, 7, 4096)?;
    assert_same(&rt, &largest.len(), &(84 + 4 * (2 * 4096 + 7)));
    Ok(())
}
