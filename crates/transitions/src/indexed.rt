//! A table with the index of its rows.

// Stays a clause of each method, "Indexed", and no ghost field: tried, and a permutation and an order by cases are no proposition.
/// The places of the rows sorted by their keys, or none where there are too many rows.
#[derive(Clone, Copy, Debug, PartialEq, Eq)]
pub struct Index<'a> {
    pub table: &'a [u64],
    pub places: &'a [usize],
}
