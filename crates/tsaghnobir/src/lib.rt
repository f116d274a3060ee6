// The calls as C, C++, Rust and Python programs see them: include/tsaghnobir.h declares these functions, and the crate `tsaghnobir_c` exports them.
// Each answers with the number of refusal, 0 for none, and writes through lent places what the wrapped call answers.
#![tactic(auto)]

mod bursts;
mod bytes;
mod drawings;
mod ends;
mod knots;
mod places;
mod questions;
mod spline_points;

pub use bursts::{tsb_feed, tsb_feed_end};
pub use bytes::{tsb_read_job, tsb_read_record, tsb_write_record};
pub use drawings::tsb_svg;
pub use ends::{tsb_clamp_ends, tsb_unclamp_right};
pub use knots::{tsb_compact, tsb_insert, tsb_remove};
pub use questions::{tsb_carrying, tsb_check, tsb_point, tsb_spans};
pub use spline_points::{tsb_join, tsb_join_through_points};
