// The parts of unclamping a curve at its right end ("Ends that are not clamped"), on slices, for a curve that has passed the check: row 23 judged, and the
// unclamped knots and points written.
#![tactic(auto)]

mod judging;
mod writing;

pub use judging::{knots_open, points_open};
pub use writing::{write_knots, write_points};
