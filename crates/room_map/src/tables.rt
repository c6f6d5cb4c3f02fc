//! Tables of numbers by place: what isn't there is read as another number, and isn't written.

/// What stands at a place, or another number.
pub fn at<T: Copy + Drop>(table: &[T], place: usize, other: T) -> T {
    match table.get(place) {
        Some(value) => *value,
        None => other,
    }
}

/// Writes a number at a place that is there.
pub fn put<T: Copy + Drop>(table: &mut [T], place: usize, value: T) {
    if let Some(slot) = table.get_mut(place) {
        *slot = value;
    }
}
