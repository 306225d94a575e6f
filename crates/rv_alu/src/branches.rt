//! The tests of the branches.
ghost use Rattle.std.specs.Prelude.{◌≡◌};
ghost use Rattle.rv_types.specs.Value.{taken};

use rv_types::Op;

/// Whether a branch with this operation is taken, on the values of its first and its second source. False for an
/// operation that is no branch's.
pub fn taken(op: Op, a: u32, b: u32) -> bool
    ensures { result ≡ taken op a b }
{
    match op {
        Op::Beq => a == b,
        Op::Bne => a != b,
        Op::Blt => a.cast_signed() < b.cast_signed(),
        Op::Bge => a.cast_signed() >= b.cast_signed(),
        Op::Bltu => a < b,
        Op::Bgeu => a >= b,
        _ => false,
    }
}
