//! Marks before the first cycle: those of the secret bytes.
ghost use Rattle.std.specs.Prelude.{◌≡◌, IfOk};
ghost use Rattle.secret_marks.specs.Marks.{opening_marks};
ghost use Rattle.secret_marks.specs.Ranges.{secret_in};
ghost use Rattle.entry_marks.specs.Walk.{marks_of};

use byte_ram::Ram;
use circular_buffer::HeapCircularBuffer;
use entry_marks::Marks;
use machine_desc::Desc;
use mark_words::{UNMARKED, secret_bytes};
use rv_types::{NoMemory, REGISTERS};
use secret_marks::SecretRange;
use std::alloc::Global;

/// The marks beside this memory, and an empty reorder buffer of the description's size, as a run begins. The one error
/// is want of memory.
pub(crate) fn opening_marks(
    alloc: Global,
    desc: &Desc,
    ram: &Ram,
    secret: &[SecretRange],
) -> Result<Marks, NoMemory>
    ensures marks { IfOk result (λ m. marks_of m ≡ opening_marks (secret_in secret.now) ram.now) }
    ensures room { IfOk result (λ m. m.window.capacity ≡ desc.now.core_rob) }
{
    let bytes = secret_bytes(alloc, ram.base(), ram.size(), secret)?;
    let window = HeapCircularBuffer::with_capacity(alloc, desc.core_rob as usize)?;
    Ok(Marks {
        regs: [UNMARKED; REGISTERS],
        bytes,
        window,
    })
}
