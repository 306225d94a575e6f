//! The values of the arithmetic instructions.
ghost use Rattle.std.specs.Prelude.{◌≡◌, ◌/◌, ◌%◌, ◌*◌, ◌^◌};
ghost use Rattle.std.specs.Int.Signed.{shr_z};
ghost use Rattle.rv_types.specs.Value.{value};
ghost use Rattle.rv_types.specs.Word.{signed, word, word_sub};

use crate::{divisions, products};
use rv_types::Op;

// `a` less `b` modulo 2^32.
fn difference(a: u32, b: u32) -> u32
    ensures { result ≡ word_sub a b }
{
    a.wrapping_sub(b)
}

// `a` shifted left by the low five bits of `b`.
fn shift_left(a: u32, b: u32) -> u32
    ensures { result ≡ a * 2 ^ (b % 32) % 2 ^ 32 }
{
    a.wrapping_shl(b)
}

// `a` shifted right by the low five bits of `b`, zeros filled in.
fn shift_right(a: u32, b: u32) -> u32
    ensures { result ≡ a / 2 ^ (b % 32) }
{
    a >> (b % 32)
}

// `a` shifted right by the low five bits of `b`, its sign filled in.
fn shift_right_signed(a: u32, b: u32) -> u32
    ensures { result ≡ word (shr_z (signed a) (2 ^ (b % 32))) }
{
    (a.cast_signed() >> (b % 32)).cast_unsigned()
}

/// The result of an arithmetic operation on the values of its first and its second source, or of its first source and
/// its immediate: sums, differences and MUL modulo 2^32; shifts by the low five bits of `b`; MULH, MULHSU and MULHU the
/// high half of the product; division rounds towards zero, by 0 it gives 2^32 - 1 and as remainder the dividend, and
/// -2^31 by -1 gives -2^31, remainder 0. 0 for an operation that computes nothing: a branch, a load or a store.
#[inline(always)]
pub fn value(op: Op, a: u32, b: u32) -> u32
    ensures { result ≡ value op a b }
{
    match op {
        Op::Add => a.wrapping_add(b),
        Op::Sub => difference(a, b),
        Op::Sll => shift_left(a, b),
        Op::Slt => u32::from(a.cast_signed() < b.cast_signed()),
        Op::Sltu => u32::from(a < b),
        Op::Xor => a ^ b,
        Op::Srl => shift_right(a, b),
        Op::Sra => shift_right_signed(a, b),
        Op::Or => a | b,
        Op::And => a & b,
        Op::Mul => a.wrapping_mul(b),
        Op::Mulh => products::high_signed(a, b),
        Op::Mulhsu => products::high_signed_unsigned(a, b),
        Op::Mulhu => products::high_unsigned(a, b),
        Op::Div => divisions::quotient_signed(a, b),
        Op::Divu => divisions::quotient_unsigned(a, b),
        Op::Rem => divisions::remainder_signed(a, b),
        Op::Remu => divisions::remainder_unsigned(a, b),
        _ => 0,
    }
}
