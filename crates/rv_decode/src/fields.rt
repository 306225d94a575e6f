//! The fields of a word: numbers, registers and immediates.
ghost use Rattle.std.specs.Prelude.{◌≡◌, ◌<◌, ◌≤◌, ◌*◌, ◌-◌, nat_lt, pos, negsuc, if◌then◌else◌};
ghost use Rattle.rv_types.specs.Word.{field};
ghost use Rattle.rv_types.specs.Decode.{imm_i, imm_s, imm_b, imm_u, imm_j, rd, rs1, rs2};

use rv_types::Reg;

/// `count` bits of the word from bit `low` on.
#[inline(always)]
pub(crate) fn field(word: u32, low: u32, count: u32) -> u32
    requires low { low < 32 }
    requires count { count < 32 }
    ensures { result ≡ field word low count }
{
    (word >> low) % (1 << count)
}

/// The destination register, bits 11..7.
#[inline]
pub(crate) fn rd(word: u32) -> Reg
    ensures { result ≡ rd word }
{
    Reg {
        number: field(word, 7, 5) as u8,
    }
}

/// The first source register, bits 19..15.
#[inline]
pub(crate) fn rs1(word: u32) -> Reg
    ensures { result ≡ rs1 word }
{
    Reg {
        number: field(word, 15, 5) as u8,
    }
}

/// The second source register, bits 24..20.
#[inline]
pub(crate) fn rs2(word: u32) -> Reg
    ensures { result ≡ rs2 word }
{
    Reg {
        number: field(word, 20, 5) as u8,
    }
}

// A number below twice `half`, of which the upper half stands for negative numbers.
#[inline(always)]
fn sign_extend(number: u32, half: u32) -> i32
    requires half { half ≤ 0x100000 }
    requires number { number < 2 * half }
    ensures { result ≡ (if nat_lt number half then pos number else negsuc (2 * half - 1 - number)) }
{
    if number < half {
        number as i32
    } else {
        number as i32 - 2 * half as i32
    }
}

/// The immediate of the form I: bits 11..0 from bits 31..20.
#[inline]
pub(crate) fn imm_i(word: u32) -> i32
    ensures { result ≡ imm_i word }
{
    sign_extend(field(word, 20, 12), 0x800)
}

/// The immediate of the form S: bits 11..5 from bits 31..25, 4..0 from 11..7.
#[inline]
pub(crate) fn imm_s(word: u32) -> i32
    ensures { result ≡ imm_s word }
{
    let bits = (field(word, 25, 7) << 5) + field(word, 7, 5);
    sign_extend(bits, 0x800)
}

/// The immediate of the form B: bit 12 from bit 31, 11 from 7, 10..5 from 30..25, 4..1 from 11..8, and 0 is zero.
#[inline]
pub(crate) fn imm_b(word: u32) -> i32
    ensures { result ≡ imm_b word }
{
    let bits = (field(word, 31, 1) << 12)
        + (field(word, 7, 1) << 11)
        + (field(word, 25, 6) << 5)
        + (field(word, 8, 4) << 1);
    sign_extend(bits, 0x1000)
}

/// The immediate of the form U: bits 31..12 from bits 31..12, the others zero.
#[inline]
pub(crate) fn imm_u(word: u32) -> i32
    ensures { result ≡ imm_u word }
{
    (field(word, 12, 20) << 12).cast_signed()
}

/// The immediate of the form J: bit 20 from bit 31, 19..12 from 19..12, 11 from 20, 10..1 from 30..21, and 0 is zero.
#[inline]
pub(crate) fn imm_j(word: u32) -> i32
    ensures { result ≡ imm_j word }
{
    let bits = (field(word, 31, 1) << 20)
        + (field(word, 12, 8) << 12)
        + (field(word, 20, 1) << 11)
        + (field(word, 21, 10) << 1);
    sign_extend(bits, 0x10_0000)
}
