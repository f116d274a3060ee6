// The archive for C: each call of the crate `tsaghnobir` under the same name, with the same clauses, for C, C++, Rust and Python programs over
// include/tsaghnobir.h.
#![tactic(auto)]

mod bursts;
mod bytes;
mod drawings;
mod ends;
mod knots;
mod questions;
mod spline_points;
