// Path data, piece by piece: how long its parts are, and the parts written by a pen.
#![tactic(auto)]

mod measuring;
mod putting;

pub use measuring::{move_length, segment_length};
pub use putting::{put_move, put_segment};
