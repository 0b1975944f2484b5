//! The operators on 32-bit numbers.
ghost use Rattle.std.specs.Prelude.{◌≡◌};
ghost use Rattle.es_value.specs.Bits.{to_uint32, bitwise_and, bitwise_or, bitwise_xor, bitwise_not, left_shift, signed_right_shift, unsigned_right_shift};

/// ToUint32 (7.1.6).
pub fn to_uint32(number: i64) -> u32
    ensures { result ≡ to_uint32 number }
{
    number.rem_euclid(4294967296) as u32
}

/// `a & b` (12.11).
pub fn and(a: i64, b: i64) -> i64
    ensures { result ≡ bitwise_and a b }
{
    i64::from((to_uint32(a) & to_uint32(b)).cast_signed())
}

/// `a | b` (12.11).
pub fn or(a: i64, b: i64) -> i64
    ensures { result ≡ bitwise_or a b }
{
    i64::from((to_uint32(a) | to_uint32(b)).cast_signed())
}

/// `a ^ b` (12.11).
pub fn xor(a: i64, b: i64) -> i64
    ensures { result ≡ bitwise_xor a b }
{
    i64::from((to_uint32(a) ^ to_uint32(b)).cast_signed())
}

/// `~a` (12.5.11).
pub fn not(a: i64) -> i64
    ensures { result ≡ bitwise_not a }
{
    i64::from((!to_uint32(a)).cast_signed())
}

/// `a << b` (12.8.3).
pub fn shl(a: i64, b: i64) -> i64
    ensures { result ≡ left_shift a b }
{
    i64::from(to_uint32(a).wrapping_shl(to_uint32(b)).cast_signed())
}

/// `a >> b` (12.8.4).
pub fn shr(a: i64, b: i64) -> i64
    ensures { result ≡ signed_right_shift a b }
{
    i64::from(to_uint32(a).cast_signed().wrapping_shr(to_uint32(b)))
}

/// `a >>> b` (12.8.5).
pub fn ushr(a: i64, b: i64) -> i64
    ensures { result ≡ unsigned_right_shift a b }
{
    i64::from(to_uint32(a).wrapping_shr(to_uint32(b)))
}
