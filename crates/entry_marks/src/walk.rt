//! What is looked at for the marks of an entry.
use circular_buffer::HeapCircularBuffer;
use lsq::Lsq;
use rob_ring::{RobRing, Sources};
use rv_types::REGISTERS;
use secret_marks::{EntryMarks, WordMarks};

/// The entries, their sources and their stores, and the marks beside them.
#[derive(Drop)]
pub struct Walk<'a> {
    /// The entries in flight, oldest first.
    pub rob: &'a RobRing,
    /// At each entry's position the writers of its sources.
    pub sources: &'a HeapCircularBuffer<Sources>,
    /// The stores among the entries, which tell who gives a byte to a load.
    pub lsq: &'a Lsq,
    /// At each entry's position its marks.
    pub marks: &'a HeapCircularBuffer<EntryMarks>,
    /// The marks of the registers, as retired.
    pub regs: &'a [WordMarks; REGISTERS],
    /// The marks of memory's bytes, as retired.
    pub bytes: &'a Vec<bool>,
    /// The address of memory's first byte.
    pub base: u32,
    /// The number of the present cycle.
    pub cycle: u32,
}
