//! Tests of cards, hands, betting trees, games, raw signals and classes, through the public calls of `gs_card`, `gs_rank`, `gs_bet`, `gs_game`, `gs_tree`,
//! `gs_boards`, `gs_filter`, `gs_match`, `gs_lossless`, `gs_iso` and `gs_split`.
#![tactic(auto)]

#[cfg(test)]
mod alike;
#[cfg(test)]
mod asked;
#[cfg(test)]
mod bets;
#[cfg(test)]
mod boards;
#[cfg(test)]
mod cards;
#[cfg(test)]
mod filters;
#[cfg(test)]
mod games;
#[cfg(test)]
mod hands;
#[cfg(test)]
mod isomorphic;
#[cfg(test)]
mod matchings;
#[cfg(test)]
mod parted;
#[cfg(test)]
mod signals;
