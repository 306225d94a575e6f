//! Digits in pairs, from tables.
ghost use Rattle.std.specs.Prelude.{◌≡◌, ◌<◌};
ghost use Rattle.line_text.specs.Digits.{hex2};
ghost use Rattle.line_text.specs.inner.Digits.{decimal2};

// The two hexadecimal digits of each byte in turn.
static HEX_PAIRS: [u8; 512] =
    *b"000102030405060708090a0b0c0d0e0f101112131415161718191a1b1c1d1e1f202122232425262728292a2b2c2d2e2f303132333435363738393a3b3c3d3e3f404142434445464748494a4b4c4d4e4f505152535455565758595a5b5c5d5e5f606162636465666768696a6b6c6d6e6f707172737475767778797a7b7c7d7e7f808182838485868788898a8b8c8d8e8f909192939495969798999a9b9c9d9e9fa0a1a2a3a4a5a6a7a8a9aaabacadaeafb0b1b2b3b4b5b6b7b8b9babbbcbdbebfc0c1c2c3c4c5c6c7c8c9cacbcccdcecfd0d1d2d3d4d5d6d7d8d9dadbdcdddedfe0e1e2e3e4e5e6e7e8e9eaebecedeeeff0f1f2f3f4f5f6f7f8f9fafbfcfdfeff";

// The two decimal digits of each number below 100.
static DECIMAL_PAIRS: [u8; 200] =
    *b"00010203040506070809101112131415161718192021222324252627282930313233343536373839404142434445464748495051525354555657585960616263646566676869707172737475767778798081828384858687888990919293949596979899";

/// The two hexadecimal digits of a byte.
#[inline]
pub(crate) fn hex_pair(byte: u8) -> [u8; 2]
    ensures { result ≡ hex2 byte }
{
    let from = byte as usize * 2;
    [HEX_PAIRS[from], HEX_PAIRS[from + 1]]
}

/// The two decimal digits of a number below 100.
#[inline]
pub(crate) fn decimal_pair(n: u64) -> [u8; 2]
    requires { n < 100 }
    ensures { result ≡ decimal2 n }
{
    let from = n as usize * 2;
    [DECIMAL_PAIRS[from], DECIMAL_PAIRS[from + 1]]
}
