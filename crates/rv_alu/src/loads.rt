//! What a load makes of the bytes that it reads.
ghost use Rattle.std.specs.Prelude.{◌≡◌, ◌<◌, ◌^◌, ◌*◌};
ghost use Rattle.rv_types.specs.Value.{extend, size_of};

use rv_types::Op;

/// The value that a load with this operation makes of the number of its bytes, the first byte lowest: LB and LH extend
/// its sign, the others fill in zeros.
pub fn extend(op: Op, bytes: u32) -> u32
    requires { bytes < 2 ^ (8 * size_of op) }
    ensures { result ≡ extend op bytes }
{
    match op {
        Op::Lb if bytes >= 0x80 => bytes + 0xffff_ff00,
        Op::Lh if bytes >= 0x8000 => bytes + 0xffff_0000,
        _ => bytes,
    }
}
