//! Which bytes are secret, as a run begins.
ghost use Rattle.std.specs.Prelude.{◌≡◌, map, IfOk};
ghost use Rattle.rv_types.specs.Memory.{range};
ghost use Rattle.secret_marks.specs.Ranges.{lies_in, secret_in};

use rv_types::NoMemory;
use secret_marks::SecretRange;
use std::alloc::Global;

// Whether an address lies in a range.
fn lies_in(a: u64, range: &SecretRange) -> bool
    ensures { result ≡ lies_in a range.now }
{
    range.addr as u64 <= a && a < range.addr as u64 + range.bytes as u64
}

// Whether the byte at an address is secret.
fn is_secret(secret: &[SecretRange], a: u64) -> bool
    ensures { result ≡ secret_in secret.now a }
{
    secret.iter().any(|range| lies_in(a, range))
}

/// The marks of `size` bytes from the address `base` on, as a run begins. The one error is want of memory.
pub fn secret_bytes(
    alloc: Global,
    base: u32,
    size: u32,
    secret: &[SecretRange],
) -> Result<Vec<bool>, NoMemory>
    ensures { IfOk result (λ bytes. bytes.items ≡ map (secret_in secret.now) (range base size)) }
{
    let mut bytes = Vec::with_capacity(alloc, size as usize)?;
    for i in 0..size {
        bytes.push(is_secret(secret, base as u64 + i as u64))?;
    }
    Ok(bytes)
}
