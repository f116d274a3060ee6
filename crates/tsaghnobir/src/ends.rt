// Clamping both ends of a curve, and unclamping its right end.
ghost use Rattle.std.specs.Prelude.{◌≡◌, length};
ghost use Rattle.curve.specs.Lists.{lists};
ghost use Rattle.curve.specs.HandingOver.{handed_over};
ghost use Rattle.clamping.specs.Clamping.{clamped, clamp_number};
ghost use Rattle.unclamping.specs.Unclamping.{unclamped, unclamp_number};
ghost use Rattle.tsaghnobir.specs.Places.{placed};

use crate::places::put;

pub fn tsb_clamp_ends(
    degree: u32,
    knots: &[u16],
    xs: &[i32],
    ys: &[i32],
    out_knots: &mut [u16],
    out_xs: &mut [i32],
    out_ys: &mut [i32],
    points: &mut usize,
) -> u32
    ensures answer { result ≡ clamp_number degree (lists knots.now xs.now ys.now)
        (lists out_knots.old out_xs.old out_ys.old) }
    ensures result { lists out_knots.new out_xs.new out_ys.new
        ≡ handed_over result (clamped degree (lists knots.now xs.now ys.now))
        (lists out_knots.old out_xs.old out_ys.old) }
    ensures count { points.new
        ≡ placed result (length (clamped degree (lists knots.now xs.now ys.now)).xs) points.old }
{
    let answer = clamp_ends::clamp_ends(degree, knots, xs, ys, out_knots, out_xs, out_ys);
    put(answer, points)
}

pub fn tsb_unclamp_right(
    degree: u32,
    knots: &[u16],
    xs: &[i32],
    ys: &[i32],
    out_knots: &mut [u16],
    out_xs: &mut [i32],
    out_ys: &mut [i32],
    points: &mut usize,
) -> u32
    ensures answer { result ≡ unclamp_number degree (lists knots.now xs.now ys.now)
        (lists out_knots.old out_xs.old out_ys.old) }
    ensures result { lists out_knots.new out_xs.new out_ys.new
        ≡ handed_over result (unclamped degree (lists knots.now xs.now ys.now))
        (lists out_knots.old out_xs.old out_ys.old) }
    ensures count { points.new ≡ placed result (length xs.now) points.old }
{
    let answer = unclamp_right::unclamp_right(degree, knots, xs, ys, out_knots, out_xs, out_ys);
    put(answer, points)
}
