// The curve on the grid: its limits, and the check that every call begins with.
// What the limits and the check mean stands in specs/, name for name.
#![tactic(auto)]

mod counts;
mod ends;
mod order;
mod range;
mod repeats;

ghost use Rattle.std.specs.Prelude.{◌≡◌};
ghost use Rattle.grid.specs.Check.{check_number};
ghost use Rattle.refusal.specs.Answers.{number_in};

pub use range::{on_grid, on_grid_wide, radius_ok, range_ok, sides_ok};
use refusal::Refusal;

pub const POINTS_MOST: usize = 1024;

pub const KNOTS_MOST: usize = POINTS_MOST + 4;

pub const KNOT_MOST: u16 = 16383;

pub const COORDINATE_MOST: i32 = 262144;

pub const SPLINE_POINTS_LEAST: usize = 2;

pub const SPLINE_POINTS_MOST: usize = 342;

pub const KNOT_BYTES_MOST: usize = 2056;

pub const COORDINATE_BYTES_MOST: usize = 4096;

pub const RADIUS_MOST: u32 = 4096;

pub const RADIUS_BYTES: usize = 2;

pub const CLAMP_BYTES: usize = 16;

pub const CLAMPS_MOST: usize = 64;

pub const SIDES_MOST: usize = 4 * CLAMPS_MOST;

pub const HEAD_BYTES: usize = 3;

pub const RECORD_MOST: usize = 4 * HEAD_BYTES + 1 + KNOT_BYTES_MOST + 2 * COORDINATE_BYTES_MOST;

pub const JOB_MOST: usize = RECORD_MOST
    + (HEAD_BYTES + RADIUS_BYTES)
    + CLAMPS_MOST * (HEAD_BYTES + CLAMP_BYTES);

pub const NUMBER_BYTES_MOST: usize = 7;

pub const PAIR_BYTES_MOST: usize = 2 * (1 + NUMBER_BYTES_MOST);

pub const SVG_MOST: usize = 1 + PAIR_BYTES_MOST + (POINTS_MOST - 1) * (2 + PAIR_BYTES_MOST);

// Nothing, or the refusal with the lowest of the numbers 1 to 7 that applies.
pub fn check(degree: u32, knots: &[u16], xs: &[i32], ys: &[i32]) -> Result<(), Refusal>
    ensures answer { number_in result ≡ check_number degree knots.now xs.now ys.now }
{
    if !counts::degree_ok(degree) {
        return Err(Refusal::Degree);
    }
    // `as`: no From leads from u32 to usize.
    let m = degree as usize;
    if !counts::point_count_ok(m, xs, ys) {
        return Err(Refusal::PointCount);
    }
    if !counts::knot_count_ok(m, knots, xs) {
        return Err(Refusal::KnotCount);
    }
    if !order::knot_order_ok(knots) {
        return Err(Refusal::KnotOrder);
    }
    if !ends::ends_ok(m, knots) {
        return Err(Refusal::Ends);
    }
    if !repeats::repeats_ok(m, knots) {
        return Err(Refusal::Repeats);
    }
    if !range::range_ok(xs, ys) {
        return Err(Refusal::Range);
    }
    Ok(())
}
