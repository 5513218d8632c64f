//! Numbers in fixed point, held within 64 and 128 bits. They steer a search, and no clause rests on what they come to.

/// How far a held number may be from 0.
pub(crate) const MOST: i128 = 1 << 61;

/// The product of two numbers.
pub(crate) fn times(one: i64, other: i64) -> i128 {
    i128::from(one) * i128::from(other)
}

/// How many bits the size of a number takes.
pub(crate) fn bits(value: i128) -> i16 {
    (128 - value.unsigned_abs().leading_zeros()) as i16
}

/// The number, or the nearest of at most 61 bits.
pub(crate) fn held(value: i128) -> i64 {
    value.clamp(-MOST, MOST) as i64
}

/// The size of a number, or the greatest number if it is above that.
pub(crate) fn size_of(value: i128) -> i128 {
    value.checked_abs().unwrap_or(i128::MAX)
}

/// A number times a power of two, rounded down, and held to 127 bits.
pub(crate) fn shifted(value: i128, by: i32) -> i128 {
    if by < 0 {
        return value.wrapping_shr(by.unsigned_abs().min(127));
    }
    if i32::from(bits(value)).saturating_add(by) < 127 {
        return value.wrapping_shl(by.unsigned_abs());
    }
    if value < 0 { i128::MIN } else { i128::MAX }
}

/// The sum of the products, place by place.
pub(crate) fn dot(xs: &[i64], ys: &[i64]) -> i128 {
    let mut total: i128 = 0;
    for (x, y) in xs.iter().zip(ys) {
        total = total.wrapping_add(times(*x, *y));
    }
    total
}

/// The greatest size of a number in the list.
pub(crate) fn greatest_size(numbers: &[i64]) -> i128 {
    let mut most: i128 = 0;
    for number in numbers {
        most = most.max(size_of(i128::from(*number)));
    }
    most
}
