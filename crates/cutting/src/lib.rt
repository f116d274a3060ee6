// What it means to cut a curve at its knots, and the piece that stands between two of them. There is nothing here that runs.
#![tactic(auto)]

// A piece of a curve: its two knots and its points, x and y; it has one point more than its degree, and unused places are 0.
#[derive(Clone, Copy, PartialEq, Eq, Debug)]
pub struct Piece {
    pub low: u16,
    pub high: u16,
    pub xs: [i32; 4],
    pub ys: [i32; 4],
}
