// A record's tags, and how many bytes of heads and degree stand in front of each field's contents.
// What they mean stands in specs/, name for name.
#![tactic(auto)]

pub const DEGREE_TAG: u8 = 1;

pub const KNOTS_TAG: u8 = 2;

pub const X_TAG: u8 = 3;

pub const Y_TAG: u8 = 4;

pub const DEGREE_PLACE: usize = grid::HEAD_BYTES;

pub const KNOTS_FIELD: usize = DEGREE_PLACE + 1;

pub const BEFORE_KNOTS: usize = KNOTS_FIELD + grid::HEAD_BYTES;

pub const BEFORE_X: usize = BEFORE_KNOTS + grid::HEAD_BYTES;

pub const BEFORE_Y: usize = BEFORE_X + grid::HEAD_BYTES;
