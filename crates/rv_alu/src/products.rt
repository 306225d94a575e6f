//! The high halves of products.
ghost use Rattle.std.specs.Prelude.{◌≡◌, ◌/◌, ◌*◌, ◌^◌, pos, ◌*ℤ◌};
ghost use Rattle.std.specs.Int.Signed.{shr_z};
ghost use Rattle.rv_types.specs.Word.{signed, word};

// The high 32 bits of a signed number of 64.
fn high(product: i64) -> u32
    ensures { result ≡ word (shr_z product (2 ^ 32)) }
{
    ((product >> 32) as i32).cast_unsigned()
}

// The product of signed numbers, which 64 bits hold.
fn product_signed(a: i32, b: i32) -> i64
    ensures { result ≡ a *ℤ b }
{
    a as i64 * b as i64
}

/// MULH: the high half of the product of signed numbers.
pub(crate) fn high_signed(a: u32, b: u32) -> u32
    ensures { result ≡ word (shr_z (signed a *ℤ signed b) (2 ^ 32)) }
{
    high(product_signed(a.cast_signed(), b.cast_signed()))
}

/// MULHSU: the high half of the product of a signed number by an unsigned one.
pub(crate) fn high_signed_unsigned(a: u32, b: u32) -> u32
    ensures { result ≡ word (shr_z (signed a *ℤ pos b) (2 ^ 32)) }
{
    high(a.cast_signed() as i64 * b as i64)
}

/// MULHU: the high half of the product of unsigned numbers.
pub(crate) fn high_unsigned(a: u32, b: u32) -> u32
    ensures { result ≡ a * b / 2 ^ 32 }
{
    (a as u64 * b as u64 >> 32) as u32
}
