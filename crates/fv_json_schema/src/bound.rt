//! Bounds: of whole numbers as numbers, of decimals, which are texts, as patterns.
ghost use Rattle.std.specs.Prelude.{◌≡◌, ◌-◌, ◌^◌, ◌≤◌, ◌≤ℤ◌, ℤ, pos, None, IfSome, FitsSigned};
ghost use Rattle.std.specs.Int.{w64};
ghost use Rattle.fv_json_schema.specs.Bounds.{units_of, IsLeastFrom, IsGreatestUpTo};

use std::alloc::{AllocError, Global};

/// 10^9, the units of 1.
const ONE: i128 = 1_000_000_000;

/// The form of a decimal.
pub(crate) const DECIMAL: &str = "^-?(?:0|[1-9][0-9]{0,17})(?:\\.[0-9]{1,9})?$";

/// The least whole number that isn't below a bound in units of 10^-9.
fn rounded_up(units: i128) -> i128
    ensures { IsLeastFrom units result }
{
    let whole = units / ONE;
    if units % ONE > 0 {
        whole.saturating_add(1)
    } else {
        whole
    }
}

/// The greatest whole number that isn't above a bound in units of 10^-9.
fn rounded_down(units: i128) -> i128
    ensures { IsGreatestUpTo units result }
{
    let whole = units / ONE;
    if units % ONE < 0 {
        whole.saturating_sub(1)
    } else {
        whole
    }
}

/// The least whole number that isn't below a bound, if it has 64 bits.
pub(crate) fn whole_from(units: i128) -> Option<i64>
    ensures found { IfSome result (IsLeastFrom units) }
    ensures none { result ≡ None → (n : ℤ) → IsLeastFrom units n → ¬ (FitsSigned w64 n) }
    ensures alike { result ≡ None → (m n : ℤ) → FitsSigned w64 m → FitsSigned w64 n → units ≤ℤ units_of m → units ≤ℤ units_of n }
{
    i64::try_from(rounded_up(units)).ok()
}

/// The greatest whole number that isn't above a bound, if it has 64 bits.
pub(crate) fn whole_up_to(units: i128) -> Option<i64>
    ensures found { IfSome result (IsGreatestUpTo units) }
    ensures none { result ≡ None → (n : ℤ) → IsGreatestUpTo units n → ¬ (FitsSigned w64 n) }
    ensures alike { result ≡ None → (m n : ℤ) → FitsSigned w64 m → FitsSigned w64 n → units_of m ≤ℤ units → units_of n ≤ℤ units }
{
    i64::try_from(rounded_down(units)).ok()
}

/// The greatest whole number of so many digits, if it has 64 bits.
pub(crate) fn most_of_digits(count: u32) -> Option<i64>
    ensures found { IfSome result (λ most. most ≡ pos (10 ^ count - 1)) }
    ensures none { result ≡ None → 2 ^ 63 ≤ 10 ^ count - 1 }
{
    if count > 18 {
        return None;
    }
    let power = 10u64.pow(count);
    i64::try_from(power.saturating_sub(1)).ok()
}

/// The digits of a size before its point, and those behind it without zeros at the end. A size is in units of 10^-9.
fn digits_of(alloc: Global, size: u128) -> Result<(String, String), AllocError> {
    let one = ONE.unsigned_abs();
    let (whole, part) = (size / one, size % one);
    let padded = format!(in alloc; "{part:09}")?;
    let behind = String::from_str(alloc, padded.as_str().trim_end_matches('0'))?;
    Ok((format!(in alloc; "{whole}")?, behind))
}

/// Adds branches for digits that part from these at some place, to a greater one there or to a lesser one; each ends
/// with `rest` of the digits left.
fn add_parting(
    out: &mut String,
    digits: &str,
    to_greater: bool,
    has_rest: bool,
) -> Result<(), AllocError> {
    for (at, digit) in digits.bytes().enumerate() {
        let (first, last) = if to_greater {
            (digit.saturating_add(1), b'9')
        } else {
            (b'0', digit.saturating_sub(1))
        };
        if first > last {
            continue;
        }
        let (first, last) = (char::from(first), char::from(last));
        let before = digits.get(..at).unwrap_or("");
        write!(out, "{before}[{first}-{last}]")?;
        let left = digits.len().saturating_sub(at).saturating_sub(1);
        if has_rest && left > 0 {
            write!(out, "[0-9]{{{left}}}")?;
        }
        out.push('|')?;
    }
    Ok(())
}

/// A pattern for what stands behind the minus of decimals of at least a size, in units of 10^-9.
fn size_from(alloc: Global, size: u128) -> Result<String, AllocError> {
    if size == 1 {
        return String::from_str(alloc, "[0-9.]*[1-9]");
    }
    let (whole, behind) = digits_of(alloc, size)?;
    let count = whole.len();
    let mut out = String::new(alloc);
    out.push_str("(?:(?:")?;
    add_parting(&mut out, whole.as_str(), true, true)?;
    write!(out, "[1-9][0-9]{{{count},}})(?:\\.|$)|{whole}")?;
    if behind.is_empty() {
        out.push_str("(?:\\.|$))")?;
    } else {
        out.push_str("\\.(?:")?;
        add_parting(&mut out, behind.as_str(), true, false)?;
        write!(out, "{behind}))")?;
    }
    Ok(out)
}

/// A pattern for what stands behind the minus of decimals of at most a size, in units of 10^-9.
fn size_up_to(alloc: Global, size: u128) -> Result<String, AllocError> {
    if size == 0 {
        return String::from_str(alloc, "[0.]+$");
    }
    let (whole, behind) = digits_of(alloc, size)?;
    let shorter = whole.len().saturating_sub(1);
    let mut out = String::new(alloc);
    out.push_str("(?:(?:")?;
    add_parting(&mut out, whole.as_str(), false, true)?;
    write!(out, "[0-9]{{0,{shorter}}})(?:\\.|$)|{whole}(?:$|\\.(?:")?;
    for at in 1..behind.len() {
        let before = behind.as_str().get(..at).unwrap_or("");
        write!(out, "{before}$|")?;
    }
    add_parting(&mut out, behind.as_str(), false, false)?;
    write!(out, "{behind}0*$)))")?;
    Ok(out)
}

/// A pattern that takes decimals from a bound in units of 10^-9, and maybe texts that are no decimals.
pub(crate) fn decimals_from(alloc: Global, units: i128) -> Result<String, AllocError> {
    let size = units.unsigned_abs();
    if units > 0 {
        let from = size_from(alloc, size)?;
        format!(in alloc; "^{from}")
    } else {
        let up_to = size_up_to(alloc, size)?;
        format!(in alloc; "^(?:[0-9]|-{up_to})")
    }
}

/// The same of decimals up to a bound.
pub(crate) fn decimals_up_to(alloc: Global, units: i128) -> Result<String, AllocError> {
    let size = units.unsigned_abs();
    if units < 0 {
        let from = size_from(alloc, size)?;
        format!(in alloc; "^-{from}")
    } else {
        let up_to = size_up_to(alloc, size)?;
        format!(in alloc; "^(?:-|{up_to})")
    }
}

/// A pattern for decimals of at most so many digits before the point and behind it.
pub(crate) fn decimals_of_digits(
    alloc: Global,
    integer: u32,
    fraction: u32,
) -> Result<String, AllocError> {
    let fraction = fraction.min(9);
    let whole = match integer.min(18).checked_sub(1) {
        None => String::from_str(alloc, "0")?,
        Some(more) => format!(in alloc; "(?:0|[1-9][0-9]{{0,{more}}})")?,
    };
    format!(in alloc; "^-?{whole}(?:\\.[0-9]{{0,{fraction}}}0*)?$")
}
