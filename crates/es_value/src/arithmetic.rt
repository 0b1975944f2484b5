//! Arithmetic on whole and safe numbers.
ghost use Rattle.std.specs.Prelude.{◌≡◌, ◌≤◌, unsigned_abs};
ghost use Rattle.es_value.specs.Arithmetic.{whole, sum, difference, product, quotient, remainder, power, times};

/// The largest safe number, 2^53 - 1 (20.1.2.6).
const MAX_SAFE: u64 = 9007199254740991;

/// Why an operation has no result in this profile.
#[derive(Clone, Copy, Debug, PartialEq, Eq)]
pub enum Exit {
    /// The result of the standard isn't a whole and safe number.
    X1,
    /// The text is no whole number in decimal digits.
    X2,
}

impl Exit {
    ghost use Rattle.std.specs.Prelude.{◌≡◌};
    ghost use Rattle.es_value.specs.Arithmetic.{exit_number};

    /// The number of the exit among all those at which a run leaves.
    pub fn number(self) -> u8
        ensures { result ≡ exit_number self }
    {
        match self {
            Exit::X1 => 1,
            Exit::X2 => 2,
        }
    }
}

/// The number, if it is safe.
pub(crate) fn whole(exact: i64) -> Result<i64, Exit>
    ensures { result ≡ whole exact }
{
    if exact.unsigned_abs() <= MAX_SAFE {
        Ok(exact)
    } else {
        Err(Exit::X1)
    }
}

/// `a + b` (12.7.3).
pub fn add(a: i64, b: i64) -> Result<i64, Exit>
    ensures { result ≡ sum a b }
{
    match a.checked_add(b) {
        Some(exact) => whole(exact),
        None => Err(Exit::X1),
    }
}

/// `a - b` (12.7.4).
pub fn sub(a: i64, b: i64) -> Result<i64, Exit>
    ensures { result ≡ difference a b }
{
    match a.checked_sub(b) {
        Some(exact) => whole(exact),
        None => Err(Exit::X1),
    }
}

/// `a * b` (12.6.3.1).
pub fn mul(a: i64, b: i64) -> Result<i64, Exit>
    ensures { result ≡ product a b }
{
    match a.checked_mul(b) {
        Some(exact) => whole(exact),
        None => Err(Exit::X1),
    }
}

/// `a / b` (12.6.3.2).
pub fn div(a: i64, b: i64) -> Result<i64, Exit>
    ensures { result ≡ quotient a b }
{
    match a.checked_rem(b) {
        Some(0) => whole(a / b),
        _ => Err(Exit::X1),
    }
}

/// `a % b`, which has the sign of `a` (12.6.3.3).
pub fn rem(a: i64, b: i64) -> Result<i64, Exit>
    ensures { result ≡ remainder a b }
{
    match b {
        0 => Err(Exit::X1),
        -1 => Ok(0),
        _ => whole(a % b),
    }
}

/// `a ** b` (7th edition, 12.6.4). The power of 0 with the exponent 0 is 1.
#[tactic(auto, using(crate::proofs::Powers::power_one, crate::proofs::Powers::power_even, crate::proofs::Powers::power_odd, crate::proofs::Powers::power_zero, crate::proofs::Powers::power_large, crate::proofs::Powers::power_negative))]
pub fn power(a: i64, b: i64) -> Result<i64, Exit>
    ensures { result ≡ power a b }
{
    if a == 1 {
        Ok(1)
    } else if a == -1 {
        Ok(if b.unsigned_abs() % 2 == 0 { 1 } else { -1 })
    } else if b < 0 {
        Err(Exit::X1)
    } else if a == 0 {
        Ok(if b == 0 { 1 } else { 0 })
    } else {
        times(a, b.unsigned_abs())
    }
}

/// The base multiplied by itself, whose absolute value is at least 2: so a power that is too large is met within 54 turns.
fn times(base: i64, exponent: u64) -> Result<i64, Exit>
    requires { 2 ≤ unsigned_abs base }
    ensures { result ≡ whole (times base exponent) }
{
    let mut done = 1;
    for _ in 0..exponent {
        done = mul(done, base)?;
    }
    Ok(done)
}
