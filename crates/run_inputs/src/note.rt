//! The line that a refusal writes to the note (`docs/formats.md`, "Notes").
ghost use Rattle.std.specs.Prelude.{◌≡◌, ◌≤◌, ◌+◌, ◌++◌, length, codes};
ghost use Rattle.run_inputs.specs.Note.{numbered, image_fault, printable, printed, description_fault, image_word, refusal_words, note_line, Tells};
ghost use Rattle.std.specs.Fmt.{signed_decimal};
ghost use Rattle.run_inputs.specs.Refused.{status_of};

use crate::refusal::{Refusal, Which, status_of};
use elf_loader::ElfFault;
use line_text::Line;
use machine_desc::DescFault;
use tool_io::Sink;

// Appends a text and a number in decimal.
fn add_numbered(line: &mut Line, text: &[u8], number: u64)
    requires { length line.old + length text.now ≤ 100 }
    ensures text { line.new ≡ line.old ++ numbered text.now number }
    ensures short { length line.new ≤ length line.old + length text.now + 20 }
{
    line.add(text);
    line.add_decimal(number);
}

// Appends two numbers behind a text.
fn add_two(line: &mut Line, text: &[u8], first: u64, second: u64)
    requires { length line.old + length text.now ≤ 60 }
    ensures text { line.new ≡ line.old ++ (numbered text.now first ++ numbered (codes " ") second) }
    ensures short { length line.new ≤ length line.old + length text.now + 41 }
{
    add_numbered(line, text, first);
    add_numbered(line, b" ", second);
}

fn add_image_fault(line: &mut Line, fault: &ElfFault)
    requires { length line.old ≤ 40 }
    ensures text { line.new ≡ line.old ++ image_fault fault.now }
    ensures short { length line.new ≤ 100 }
{
    match *fault {
        ElfFault::Short(need, have) => add_two(line, b"E1 ", need, have),
        ElfFault::Magic => line.add(b"E2"),
        ElfFault::Class(class) => add_numbered(line, b"E3 ", class as u64),
        ElfFault::Data(encoding) => add_numbered(line, b"E4 ", encoding as u64),
        ElfFault::Version(version) => add_numbered(line, b"E5 ", version as u64),
        ElfFault::FileType(kind) => add_numbered(line, b"E6 ", kind as u64),
        ElfFault::Machine(machine) => add_numbered(line, b"E7 ", machine as u64),
        ElfFault::Compressed(flags) => add_numbered(line, b"E8 ", flags as u64),
        ElfFault::EntrySize(size) => add_numbered(line, b"E9 ", size as u64),
        ElfFault::TableOutside(end, have) => add_two(line, b"E10 ", end, have),
        ElfFault::Interp(i) => add_numbered(line, b"E11 ", i as u64),
        ElfFault::SegmentSize(i) => add_numbered(line, b"E12 ", i as u64),
        ElfFault::FileOutside(i) => add_numbered(line, b"E13 ", i as u64),
        ElfFault::RamOutside(i) => add_numbered(line, b"E14 ", i as u64),
        ElfFault::NoMemory => line.add(b"E15"),
    }
}

// Appends a name, with a question mark for each byte below 32.
fn add_printed(line: &mut Line, name: &[u8])
    requires { length line.old + length name.now ≤ 200 }
    ensures text { line.new ≡ line.old ++ printed name.now }
    ensures short { length line.new ≡ length line.old + length name.now }
{
    for byte in name {
        line.add(&[printable(*byte)]);
    }
}

fn printable(byte: u8) -> u8
    ensures { result ≡ printable byte }
{
    if byte < 32 { b'?' } else { byte }
}

fn add_signed(line: &mut Line, number: i64)
    requires { length line.old ≤ 200 }
    ensures text { line.new ≡ line.old ++ signed_decimal number }
    ensures short { length line.new ≤ length line.old + 21 }
{
    if number < 0 {
        line.add(b"-");
    }
    line.add_decimal(number.unsigned_abs());
}

fn add_description_fault(line: &mut Line, fault: &DescFault)
    requires { length line.old ≤ 40 }
    ensures text { line.new ≡ line.old ++ description_fault fault.now }
    ensures short { length line.new ≤ 250 }
{
    match fault {
        DescFault::Syntax => line.add(b"K1"),
        DescFault::Unknown(name) => {
            line.add(b"K2 ");
            add_printed(line, name.as_slice());
        }
        DescFault::Missing(key) => {
            line.add(b"K3 ");
            line.add(key.text().as_slice());
        }
        DescFault::Kind(subject) => {
            line.add(b"K4 ");
            line.add(subject.text().as_slice());
        }
        DescFault::Version(value) => {
            line.add(b"K5 version ");
            add_signed(line, *value);
        }
        DescFault::Range(key, value) => {
            line.add(b"K5 ");
            line.add(key.text().as_slice());
            line.add(b" ");
            add_signed(line, *value);
        }
        DescFault::Shape(key) => {
            line.add(b"K6 ");
            line.add(key.text().as_slice());
        }
        DescFault::NoMemory => line.add(b"K7"),
    }
}

// The word of an image.
fn image_word(which: Which) -> &'static [u8]
    ensures { result.now ≡ image_word which }
{
    match which {
        Which::First => b"image",
        Which::Second => b"image2",
    }
}

fn add_refusal(line: &mut Line, refusal: &Refusal)
    requires { length line.old ≡ 0 }
    ensures text { line.new ≡ line.old ++ refusal_words refusal.now }
    ensures short { length line.new ≤ 300 }
{
    match refusal {
        Refusal::Words => line.add(b"words"),
        Refusal::ReadDescription => line.add(b"read description"),
        Refusal::DescriptionTooLong => line.add(b"description too long"),
        Refusal::Description(fault) => {
            line.add(b"description ");
            add_description_fault(line, fault);
        }
        Refusal::ReadImage(which) => {
            line.add(b"read ");
            line.add(image_word(*which));
        }
        Refusal::ImageTooLong(which) => {
            line.add(image_word(*which));
            line.add(b" too long");
        }
        Refusal::Image(which, fault) => {
            line.add(image_word(*which));
            line.add(b" ");
            add_image_fault(line, fault);
        }
        Refusal::Write => line.add(b"write"),
        Refusal::Memory => line.add(b"memory"),
    }
}

/// The line of a refusal.
#[tactic(auto, unfolding(crate::specs::Note::note_line))]
pub fn note_line(refusal: &Refusal) -> Line
    ensures { result ≡ note_line refusal.now }
{
    let mut line = Line::new();
    add_refusal(&mut line, refusal);
    line.add(b"\n");
    line
}

/// Tells a refusal: its line goes to the note, whose failure changes nothing of the answer, the status.
pub fn refuse<N: Sink>(refusal: &Refusal, note: &mut N) -> u8
    ensures status { result ≡ status_of refusal.now }
    ensures line { Tells refusal.now (N.told note.old) (N.told note.new) }
{
    let _ = note.put(note_line(refusal).as_slice());
    status_of(refusal)
}
