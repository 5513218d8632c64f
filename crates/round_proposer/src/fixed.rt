//! Numbers held within 64 and 128 bits. They steer a search, and no clause rests on what they come to.

/// How far a held number may be from 0.
pub(crate) const MOST: i128 = 1 << 61;

/// The product of two numbers.
pub(crate) fn times(one: i64, other: i64) -> i128 {
    i128::from(one) * i128::from(other)
}

/// How many bits the size of a number takes.
pub(crate) fn bits(value: i128) -> u32 {
    128 - value.unsigned_abs().leading_zeros()
}

/// The number, or the nearest of at most 61 bits.
pub(crate) fn held(value: i128) -> i64 {
    value.clamp(-MOST, MOST) as i64
}

/// The size of a number, or the greatest number if it is above that.
pub(crate) fn size_of(value: i128) -> i128 {
    value.checked_abs().unwrap_or(i128::MAX)
}
