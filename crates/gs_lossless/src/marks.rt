//! Marks of last-round signals: the mark of a signal is a signal that sees the same deals.

ghost use Rattle.std.specs.{Prelude.{◌≡◌, ◌<◌, ◌⊎◌, ℕ, IfSome, length, slice_index}, List.{All}};
ghost use Rattle.gs_lossless.specs.{Boards.{seat_signals}, Hands.{IsMark}};

use crate::board::Seat;
use crate::kinds::KEYS;

/// The state of a search for the hands of one board on another: the latest level, its first place, and where the latest hand was found.
/// On both boards the levels ascend in the same way.
#[derive(Drop)]
struct Search {
    level: u64,
    from: usize,
    found: usize,
}

/// Returns the first place of a hand, from the place `from` on.
fn place_of(hands: &[u64], from: usize, hand: u64) -> Option<usize>
    ensures { IfSome result (λ place. (place < length hands.now) × (slice_index hands.now place ≡ hand)) }
{
    for place in from..hands.len() {
        if hands[place] == hand {
            return Some(place);
        }
    }
    None
}

/// Returns a place of the hand `hand` among `others`. Looks first where the latest hand was found, then from the first place of the level on.
/// `place` is the place of the hand on its own board.
fn find(search: &mut Search, others: &[u64], place: usize, hand: u64) -> Option<usize>
    ensures { IfSome result (λ other. (other < length others.now) × (slice_index others.now other ≡ hand)) }
{
    if search.found < others.len() && others[search.found] == hand {
        return Some(search.found);
    }
    let level = hand / KEYS;
    if search.level < level {
        search.level = level;
        search.from = place;
    }
    let found = place_of(others, search.from, hand);
    search.found = found.unwrap_or(others.len());
    found
}

/// Marks signals of a board with signals of another board that have the same hands.
pub(crate) fn mark_board(
    marks: &mut [u32],
    seats: &[Seat],
    hands: &[u64],
    others: &[Seat],
    other_hands: &[u64],
)
    requires hands { length hands.now ≡ length seats.now }
    requires other_hands { length other_hands.now ≡ length others.now }
    requires within { All (λ seat. seat.signal < length marks.old) seats.now }
    ensures long { length marks.new ≡ length marks.old }
    ensures each { (i : ℕ) → (slice_index marks.new i ≡ slice_index marks.old i)
        ⊎ IsMark (seat_signals seats.now) hands.now (seat_signals others.now) other_hands.now i (slice_index marks.new i) }
{
    let mut search = Search {
        level: 0,
        from: 0,
        found: other_hands.len(),
    };
    for (place, hand) in hands.iter().enumerate() {
        if let Some(other) = find(&mut search, other_hands, place, *hand) {
            marks[seats[place].signal as usize] = others[other].signal;
        }
    }
}
