// The joined curve, written over lent lists: with the points where its pieces meet, or without them.
#![tactic(auto)]

mod knots;
mod meeting;
mod points;

pub use knots::write_knots;
pub use meeting::Meeting;
pub use points::write_points;

// How often an inner parameter stands where the meeting points drop out.
pub const INNER_TWICE: usize = 2;
// How often it stands where the meeting points stay.
pub const INNER_THRICE: usize = 3;
