//! The part of memory that the segments take.
//!
//! Loading notes something for each byte and for each word. It does so for the span of the segments, from the first
//! byte of any of them to behind the last, and not for all of memory: so a program starts as fast in a large memory as
//! in a small.
ghost use Rattle.std.specs.Prelude.{◌≡◌, ◌≤◌, ◌<◌, ◌+◌, ◌-◌, ◌%◌, ◌^◌, length, None, IfSome, IfOk, ℕ};
ghost use Rattle.elf_loader.specs.Image.{segment_at, ram_fault};
ghost use Rattle.elf_loader.specs.inner.Filling.{Inside};
ghost use Rattle.elf_loader.specs.inner.Spans.{InRows, LiesBetween, AllInside, part};
ghost use Rattle.elf_loader.specs.Faults.{header_fault};

use crate::parts::Segments;
use byte_ram::Ram;
use rv_types::NoMemory;
use std::alloc::Global;

/// The span begins and ends at multiples of so many bytes, as memory does.
const ALIGNMENT: usize = 16;

/// A span of memory's bytes: the place of the first one, and of the first behind it, both multiples of 16.
#[derive(Clone, Copy)]
pub(crate) struct MemorySpan {
    pub from: usize,
    pub to: usize,
}

// The span with the rows of these bytes too.
fn widened(span: MemorySpan, start: usize, end: usize) -> MemorySpan
    requires { end < 2 ^ 33 }
    ensures from { result.from ≤ span.from }
    ensures start { result.from ≤ start }
    ensures to { span.to ≤ result.to }
    ensures end { end ≤ result.to }
    ensures whole_before { span.from % 16 ≡ 0 → result.from % 16 ≡ 0 }
    ensures whole_behind { span.to % 16 ≡ 0 → result.to % 16 ≡ 0 }
    ensures within { (n : ℕ) → n % 16 ≡ 0 → span.to ≤ n → end ≤ n → result.to ≤ n }
{
    let first = start / ALIGNMENT * ALIGNMENT;
    let behind = (end + ALIGNMENT - 1) / ALIGNMENT * ALIGNMENT;
    MemorySpan {
        from: if first < span.from { first } else { span.from },
        to: if span.to < behind { behind } else { span.to },
    }
}

// The span with the segment of program header i too, where it has one.
fn with_segment(segments: &Segments<'_>, i: u16, ram: &Ram, span: MemorySpan) -> MemorySpan
    requires inside { IfSome (segment_at segments.now i) (Inside ram.now.base (length ram.now.bytes)) }
    requires span { InRows (length ram.now.bytes) span.from span.to }
    ensures here { IfSome (segment_at segments.now i)
        (LiesBetween (ram.now.base + result.from) (ram.now.base + result.to)) }
    ensures from { result.from ≤ span.from }
    ensures to { span.to ≤ result.to }
    ensures span { InRows (length ram.now.bytes) result.from result.to }
{
    // Asked for its clauses alone: memory's size and end bound the sums below.
    let _size = ram.size();
    match segments.at(i) {
        Some(segment) => {
            let start = (segment.vaddr - ram.base()) as usize;
            widened(span, start, start + segment.memsz as usize)
        }
        None => span,
    }
}

// The span, or where it is empty one row.
fn at_least_a_row(span: MemorySpan, size: usize) -> MemorySpan
    requires span { InRows size span.from span.to }
    requires whole { size % 16 ≡ 0 }
    requires some { 0 < size }
    requires end { size < 2 ^ 32 }
    ensures some { result.from < result.to }
    ensures span { InRows size result.from result.to }
    ensures from { result.from ≤ span.from }
    ensures to { span.to ≤ result.to }
{
    if span.from < span.to {
        return span;
    }
    if span.from < size {
        return MemorySpan {
            from: span.from,
            to: span.from + ALIGNMENT,
        };
    }
    MemorySpan {
        from: size - ALIGNMENT,
        to: size,
    }
}

/// The span of the segments, at least one row.
pub(crate) fn span_of(segments: &Segments<'_>, ram: &Ram) -> MemorySpan
    requires { ram_fault segments.now ram.now ≡ None }
    ensures some { result.from < result.to }
    ensures span { InRows (length ram.now.bytes) result.from result.to }
    ensures faultless { header_fault segments.now ≡ None }
    ensures all { AllInside segments.now (ram.now.base + result.from) (result.to - result.from) }
{
    let size = ram.size() as usize;
    let mut span = MemorySpan { from: size, to: 0 };
    for i in 0..segments.count() {
        span = with_segment(segments, i, ram, span);
    }
    at_least_a_row(span, size)
}

/// A copy of this span of memory, as a memory of its own. The one error is want of memory.
pub(crate) fn part_of(alloc: Global, ram: &Ram, span: MemorySpan) -> Result<Ram, NoMemory>
    requires some { span.from < span.to }
    requires span { InRows (length ram.now.bytes) span.from span.to }
    ensures { IfOk result (λ p. p ≡ part ram.now span.from span.to) }
{
    // Asked for its clauses alone: memory's size and end bound the sums below.
    let _size = ram.size();
    let base = ram.base() + span.from as u32;
    let size = (span.to - span.from) as u32;
    let mut part = Ram::new(alloc, base, size, ram.misaligned())?;
    part.place(base, &ram.bytes()[span.from..span.to]);
    Ok(part)
}
