//! A row of a number for each class of a round.

/// A number for each class of a round, in a list from the place `start` on.
#[derive(Clone, Copy)]
pub(crate) struct ClassRow<'a> {
    pub(crate) round: u8,
    pub(crate) values: &'a [i128],
    pub(crate) start: usize,
}
