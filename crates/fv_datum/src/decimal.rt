//! Decimals: texts that write a number with at most 18 digits before the point and 9 behind it.
ghost use Rattle.std.specs.Prelude.{◌≡◌, ◌<◌, ◌^◌, ◌≤◌, ◌+◌, pos, neg_ℤ, true, option_map, length, IfSome};
ghost use Rattle.std.specs.Option.{ForSome};
ghost use Rattle.std.specs.Char.{is_ascii_digit};
ghost use Rattle.std.specs.List.{list_all};
ghost use Rattle.std.specs.Str.Parse.{digits_value};
ghost use Rattle.fv_datum.specs.Decimals.{decimal_units, unsigned_units, is_negative, before_point, behind_point, is_whole_part, is_fraction, are_digits, whole_units, fraction_units};

/// The number that a decimal writes, in units of 10^-9.
///
/// A decimal is an optional `-`, then `0` or 1 to 18 digits that don't begin with 0, then, if
/// anything, a point and 1 to 9 digits. Of any other text there is no number.
pub fn decimal_units(text: &str) -> Option<i128>
    ensures { result ≡ decimal_units text.now }
{
    let bytes = text.as_bytes();
    if is_negative(bytes) {
        let (_, unsigned) = bytes.split_at(1);
        below_zero(unsigned_units(unsigned))
    } else {
        let units = unsigned_units(bytes)?;
        Some(units as i128)
    }
}

fn is_negative(bytes: &[u8]) -> bool
    ensures { result ≡ is_negative bytes.now }
{
    bytes.len() > 0 && bytes[0] == b'-'
}

fn below_zero(units: Option<u128>) -> Option<i128>
    requires { ForSome units (λ n. n < 10 ^ 27) }
    ensures { result ≡ option_map (λ n. neg_ℤ (pos n)) units }
{
    match units {
        None => None,
        Some(units) => Some(-(units as i128)),
    }
}

/// The same of a text without a sign.
fn unsigned_units(bytes: &[u8]) -> Option<u128>
    ensures value { result ≡ unsigned_units bytes.now }
    ensures small { IfSome result (λ n. n < 10 ^ 27) }
{
    let (whole, fraction) = split_at_point(bytes);
    if !is_whole_part(whole) || !is_fraction(fraction) {
        return None;
    }
    Some(whole_units(whole) + fraction_units(fraction))
}

/// What stands before the first point, and behind it if there is one.
fn split_at_point(bytes: &[u8]) -> (&[u8], Option<&[u8]>)
    ensures before { result.0.now ≡ before_point bytes.now }
    ensures behind { option_map (λ b. b.now) result.1 ≡ behind_point bytes.now }
{
    for i in 0..bytes.len() {
        if bytes[i] == b'.' {
            return (&bytes[..i], Some(&bytes[i + 1..]));
        }
    }
    (bytes, None)
}

fn is_whole_part(bytes: &[u8]) -> bool
    ensures { result ≡ is_whole_part bytes.now }
{
    if !are_digits(bytes) {
        return false;
    }
    if bytes.len() > 18 {
        return false;
    }
    bytes.len() == 1 || bytes[0] != b'0'
}

fn is_fraction(bytes: Option<&[u8]>) -> bool
    ensures { result ≡ is_fraction (option_map (λ b. b.now) bytes.entry) }
{
    match bytes {
        None => true,
        Some(bytes) => are_digits(bytes) && bytes.len() <= 9,
    }
}

/// Whether the bytes are one ASCII digit or more, and nothing else.
pub fn are_digits(bytes: &[u8]) -> bool
    ensures { result ≡ are_digits bytes.now }
{
    if bytes.is_empty() {
        return false;
    }
    all_digits(bytes)
}

fn all_digits(bytes: &[u8]) -> bool
    ensures { result ≡ list_all is_ascii_digit bytes.now }
{
    bytes.iter().all(|b| b.is_ascii_digit())
}

fn whole_units(bytes: &[u8]) -> u128
    requires { is_whole_part bytes.now ≡ true }
    ensures value { result ≡ whole_units bytes.now }
    ensures small { result + 10 ^ 9 ≤ 10 ^ 27 }
{
    digits_value(bytes) as u128 * 1_000_000_000
}

fn fraction_units(bytes: Option<&[u8]>) -> u128
    requires { is_fraction (option_map (λ b. b.now) bytes) ≡ true }
    ensures value { result ≡ fraction_units (option_map (λ b. b.now) bytes.entry) }
    ensures small { result < 10 ^ 9 }
{
    match bytes {
        None => 0,
        Some(bytes) => digits_value(bytes) as u128 * 10u128.pow(9 - bytes.len() as u32),
    }
}

/// The number that digits write: at most 18 of them.
pub(crate) fn digits_value(bytes: &[u8]) -> u64
    requires digits { are_digits bytes.now ≡ true }
    requires few { length bytes.now ≤ 18 }
    ensures value { result ≡ digits_value 10 bytes.now }
    ensures small { result < 10 ^ length bytes.now }
{
    let mut value: u64 = 0;
    for b in bytes {
        value = value * 10 + (*b - b'0') as u64;
    }
    value
}
