//! Quotients, remainders, and how long a division takes.
ghost use Rattle.std.specs.Prelude.{◌≡◌, ◌/◌, ◌%◌, ◌==◌, ◌-◌, ◌^◌, if◌then◌else◌, int_div, int_rem};
ghost use Rattle.rv_types.specs.Value.{div_time, magnitude};
ghost use Rattle.rv_types.specs.Word.{signed, word};

use rv_types::Op;

// The least signed number, -2^31, as a word.
const LEAST: u32 = 0x8000_0000;

// The signed number -1, as a word.
const MINUS_ONE: u32 = 0xffff_ffff;

/// DIV: the quotient of signed numbers, rounded towards zero; by 0 it is -1, and -2^31 by -1 is -2^31.
pub(crate) fn quotient_signed(a: u32, b: u32) -> u32
    ensures { result ≡ (if b == 0 then 2 ^ 32 - 1 else word (int_div (signed a) (signed b))) }
{
    if b == 0 {
        return MINUS_ONE;
    }
    if a == LEAST && b == MINUS_ONE {
        return LEAST;
    }
    (a.cast_signed() / b.cast_signed()).cast_unsigned()
}

/// REM: what the quotient of signed numbers leaves, of the dividend's sign; by 0 it is the dividend, and -2^31 by -1
/// leaves 0.
pub(crate) fn remainder_signed(a: u32, b: u32) -> u32
    ensures { result ≡ (if b == 0 then a else word (int_rem (signed a) (signed b))) }
{
    if b == 0 {
        return a;
    }
    if a == LEAST && b == MINUS_ONE {
        return 0;
    }
    (a.cast_signed() % b.cast_signed()).cast_unsigned()
}

/// DIVU: the quotient, rounded down; by 0 it is 2^32 - 1.
pub(crate) fn quotient_unsigned(a: u32, b: u32) -> u32
    ensures { result ≡ (if b == 0 then 2 ^ 32 - 1 else a / b) }
{
    if b == 0 { u32::MAX } else { a / b }
}

/// REMU: what the quotient leaves; by 0 it is the dividend.
pub(crate) fn remainder_unsigned(a: u32, b: u32) -> u32
    ensures { result ≡ (if b == 0 then a else a % b) }
{
    if b == 0 { a } else { a % b }
}

// The magnitude of the dividend, which is signed for DIV and REM.
fn magnitude(op: Op, a: u32) -> u32
    ensures { result ≡ magnitude op a }
{
    match op {
        Op::Div | Op::Rem => a.cast_signed().unsigned_abs(),
        _ => a,
    }
}

/// How many cycles a division of the dividend `a` takes: 3, and one for each binary digit of the dividend's magnitude
/// (0 has none), so 3 to 35. The dividend is signed for DIV and REM.
pub fn div_time(op: Op, a: u32) -> u8
    ensures { result ≡ div_time op a }
{
    let digits = 32 - magnitude(op, a).leading_zeros();
    3 + digits as u8
}
