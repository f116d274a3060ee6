// The words of path data, a number, a pair of them and the letter of a degree: how long they are, and each written by a pen.
#![tactic(auto)]

mod letters;
mod measuring;
mod putting;

pub use letters::put_letter;
pub use measuring::{number_length, pair_length};
pub use putting::{put_number, put_pair};
