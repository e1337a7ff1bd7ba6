//! Betting positions: points, where a player chooses, and ends. Both are numbered from 0 in the order of the walk.

/// A choice made at a point: the move's place among the point's moves.
#[derive(Clone, Copy, PartialEq, Eq)]
pub struct Step {
    pub point: u32,
    pub choice: u8,
}

/// Where a move leads: a point or an end, by its number.
#[derive(Clone, Copy, Debug, PartialEq, Eq)]
pub enum Target {
    Point(u32),
    End(u32),
}

/// A move: its letter and where it leads.
#[derive(Clone, Copy)]
pub struct Arrow {
    pub letter: u8,
    pub to: Target,
}

/// A point: who chooses, in which round, that player's last step before it, and the moves.
#[derive(Drop)]
pub struct Point {
    pub player: u8,
    pub round: u8,
    pub own: Option<Step>,
    pub moves: Vec<Arrow>,
}

/// How play ended: player 1 folded, player 2 folded, or the hands were shown.
#[derive(Clone, Copy)]
pub enum EndKind {
    Folded1,
    Folded2,
    Show,
}

/// An end: its round, its kind, what the folder has put (at `Show` what each has put), and both players' last steps.
#[derive(Clone, Copy)]
pub struct End {
    pub round: u8,
    pub kind: EndKind,
    pub put: u16,
    pub one: Option<Step>,
    pub two: Option<Step>,
}
