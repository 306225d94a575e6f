//! Ranges of secret bytes as words give them: `ADDRESS:BYTES` (`docs/formats.md`, "Words of stt_secrets").
ghost use Rattle.std.specs.Prelude.{◌≡◌, ◌≤◌, IfOk, IfErr, map, None, Some};
ghost use Rattle.secret_words.specs.Ranges.{number_of, address_of, bytes_of, range_of, ranges_of};

use secret_marks::SecretRange;
use std::alloc::Global;
use tool_words::Refused;

/// The fewest bytes that a range may have.
const BYTES_MIN: u32 = 1;

/// The number of a text in this radix, where it is one of 32 bits.
pub(crate) fn number_of(text: &str, radix: u32) -> Option<u32>
    requires least { 2 ≤ radix }
    requires most { radix ≤ 36 }
    ensures { result ≡ number_of radix text.now }
{
    match u32::from_str_radix(text, radix) {
        Ok(number) => Some(number),
        Err(_) => None,
    }
}

// ADDRESS: hexadecimal behind `0x`, else decimal.
fn address_of(text: &str) -> Option<u32>
    ensures { result ≡ address_of text.now }
{
    match text.strip_prefix("0x") {
        Some(digits) => number_of(digits, 16),
        None => number_of(text, 10),
    }
}

// BYTES: decimal, at least `BYTES_MIN`.
fn bytes_of(text: &str) -> Option<u32>
    ensures { result ≡ bytes_of text.now }
{
    match number_of(text, 10) {
        Some(bytes) => {
            if BYTES_MIN <= bytes {
                Some(bytes)
            } else {
                None
            }
        }
        None => None,
    }
}

// ADDRESS:BYTES, cut at the first colon.
fn range_of(text: &str) -> Option<SecretRange>
    ensures { result ≡ range_of text.now }
{
    let (address, bytes) = text.split_once(':')?;
    let addr = address_of(address)?;
    let bytes = bytes_of(bytes)?;
    Some(SecretRange { addr, bytes })
}

/// The ranges of these texts. Errors: `Words`, only where one of the texts is no range; `Memory`.
pub(crate) fn read_ranges(alloc: Global, texts: &[&str]) -> Result<Vec<SecretRange>, Refused>
    ensures ok { IfOk result (λ v. ranges_of (map (λ t. t.now) texts.now) ≡ Some v.items) }
    ensures refused { IfErr result (λ e. e ≡ Refused.Words → ranges_of (map (λ t. t.now) texts.now) ≡ None) }
{
    let mut ranges = Vec::new(alloc);
    for text in texts {
        match range_of(text) {
            Some(range) => {
                if ranges.push(range).is_err() {
                    return Err(Refused::Memory);
                }
            }
            None => return Err(Refused::Words),
        }
    }
    Ok(ranges)
}
