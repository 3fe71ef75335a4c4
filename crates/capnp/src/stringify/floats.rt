//! Floats, as the C++ tool prints them: in the digits of C's `printf`, fewer where these are read
//! back as the same number.
use std::alloc::{AllocError, Global};

/// Adds a float: in 6 significant digits where these are read back as the same number, and it is a
/// normal one, and else in 8.
///
/// Fails only when out of memory.
pub fn push_float32(alloc: Global, output: &mut String, number: f32) -> Result<(), AllocError> {
    if let Some(name) = name_of(f64::from(number)) {
        return output.push_str(name);
    }
    let few = format!(in alloc; "{number:.5e}")?;
    if !is_subnormal(number) && few.as_str().parse::<f32>() == Ok(number) {
        return push_digits(output, few.as_str(), 6);
    }
    let more = format!(in alloc; "{number:.7e}")?;
    push_digits(output, more.as_str(), 8)
}

/// Adds a float: in 15 significant digits where these are read back as the same number, else in 17.
///
/// Fails only when out of memory.
pub fn push_float64(alloc: Global, output: &mut String, number: f64) -> Result<(), AllocError> {
    if let Some(name) = name_of(number) {
        return output.push_str(name);
    }
    let few = format!(in alloc; "{number:.14e}")?;
    if few.as_str().parse::<f64>() == Ok(number) {
        return push_digits(output, few.as_str(), 15);
    }
    let more = format!(in alloc; "{number:.16e}")?;
    push_digits(output, more.as_str(), 17)
}

// Whether a float is nearer to 0 than the smallest normal one.
fn is_subnormal(number: f32) -> bool {
    number != 0.0 && number < f32::MIN_POSITIVE && number > -f32::MIN_POSITIVE
}

// The name of a float that isn't finite.
fn name_of(number: f64) -> Option<&'static str> {
    if number.is_nan() {
        return Some("nan");
    }
    if number.is_finite() {
        return None;
    }
    Some(if number > 0.0 { "inf" } else { "-inf" })
}

// Adds a number, as C's `%g` writes it, without zeros at its end; `written` has this many digits
// and an exponent. An exponent below -4, or not below the number of digits, is written, too.
fn push_digits(output: &mut String, written: &str, digits: i32) -> Result<(), AllocError> {
    let Some((mantissa, exponent)) = written.split_once('e') else {
        return output.push_str(written);
    };
    let exponent = exponent.parse::<i32>().unwrap_or(0);
    let mantissa = match mantissa.strip_prefix("-") {
        Some(rest) => {
            output.push('-')?;
            rest
        }
        None => mantissa,
    };
    let (first, rest) = mantissa.split_once('.').unwrap_or((mantissa, ""));
    let rest = rest.trim_end_matches('0');
    if exponent < -4 || exponent >= digits {
        push_point(output, first, rest)?;
        return push_exponent(output, exponent);
    }
    if exponent < 0 {
        output.push_str("0.")?;
        for _ in exponent..-1 {
            output.push('0')?;
        }
        output.push_str(first)?;
        return output.push_str(rest);
    }
    output.push_str(first)?;
    push_moved(output, rest, exponent)
}

// Adds the digits before a point and those after it, if there are any.
fn push_point(output: &mut String, whole: &str, fraction: &str) -> Result<(), AllocError> {
    output.push_str(whole)?;
    if !fraction.is_empty() {
        output.push('.')?;
        output.push_str(fraction)?;
    }
    Ok(())
}

// Adds the digits after the first one, the point after this many of them.
fn push_moved(output: &mut String, digits: &str, count: i32) -> Result<(), AllocError> {
    let mut left = count;
    for digit in digits.chars() {
        if left == 0 {
            output.push('.')?;
        }
        left = left.saturating_sub(1);
        output.push(digit)?;
    }
    for _ in 0..left {
        output.push('0')?;
    }
    Ok(())
}

// Adds an exponent in at least two digits.
fn push_exponent(output: &mut String, exponent: i32) -> Result<(), AllocError> {
    output.push('e')?;
    if exponent < 0 {
        output.push('-')?;
    }
    let number = exponent.unsigned_abs();
    if number < 10 {
        output.push('0')?;
    }
    push_decimal(output, number)
}

// Adds a number in decimal digits.
fn push_decimal(output: &mut String, number: u32) -> Result<(), AllocError> {
    use std::fmt::Write;
    write!(output, "{number}")
}
