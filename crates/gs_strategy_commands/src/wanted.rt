//! What the commands want of a confirmed strategy.

use crate::queries::Query;

/// What is wanted of a confirmed strategy.
#[derive(Drop)]
pub(crate) enum Wanted<'w> {
    /// Its value and gaps.
    Numbers,
    /// Its text in version 2.
    Upgrade,
    /// Its text in version 2 and its certificate.
    Certificate,
    /// The mixture and the gap of the player that the query names.
    Mixture(Query<'w>),
}
