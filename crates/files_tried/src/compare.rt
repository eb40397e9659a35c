// Two tables or two outputs, place by place.

// How many words or bytes of one differ from those of the other, as far as both go.
pub(crate) fn count_differing<T: PartialEq>(one: &[T], other: &[T]) -> usize {
    one.iter().zip(other).filter(|(a, b)| a != b).count()
}
