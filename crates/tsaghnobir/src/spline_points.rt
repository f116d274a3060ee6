// Joining spline points into a curve of degree 3, by default and through the points where pieces meet.
ghost use Rattle.std.specs.Prelude.{◌≡◌, ℕ, length};
ghost use Rattle.curve.specs.Lists.{lists};
ghost use Rattle.curve.specs.HandingOver.{handed_over};
ghost use Rattle.joined_curve.specs.Curve.{inner_twice, inner_thrice};
ghost use Rattle.joining.specs.SplinePoints.{spline_points};
ghost use Rattle.joining.specs.Answer.{joined_lists, join_number};
ghost use Rattle.tsaghnobir.specs.Places.{placed};

use crate::places::put;

pub fn tsb_join(
    params: &[u16],
    px: &[i32],
    py: &[i32],
    tx: &[i32],
    ty: &[i32],
    out_knots: &mut [u16],
    out_xs: &mut [i32],
    out_ys: &mut [i32],
    points: &mut usize,
) -> u32
    ensures answer { result ≡ join_number inner_twice
        (spline_points params.now px.now py.now tx.now ty.now)
        (lists out_knots.old out_xs.old out_ys.old) }
    ensures result { lists out_knots.new out_xs.new out_ys.new
        ≡ handed_over result (joined_lists inner_twice (spline_points params.now px.now py.now tx.now ty.now))
        (lists out_knots.old out_xs.old out_ys.old) }
    ensures count { points.new ≡ placed result (length (joined_lists inner_twice
        (spline_points params.now px.now py.now tx.now ty.now)).xs) points.old }
{
    let given = joining::join(params, px, py, tx, ty, out_knots, out_xs, out_ys);
    put(given, points)
}

pub fn tsb_join_through_points(
    params: &[u16],
    px: &[i32],
    py: &[i32],
    tx: &[i32],
    ty: &[i32],
    out_knots: &mut [u16],
    out_xs: &mut [i32],
    out_ys: &mut [i32],
    points: &mut usize,
) -> u32
    ensures answer { result ≡ join_number inner_thrice
        (spline_points params.now px.now py.now tx.now ty.now)
        (lists out_knots.old out_xs.old out_ys.old) }
    ensures result { lists out_knots.new out_xs.new out_ys.new
        ≡ handed_over result (joined_lists inner_thrice (spline_points params.now px.now py.now tx.now ty.now))
        (lists out_knots.old out_xs.old out_ys.old) }
    ensures count { points.new ≡ placed result (length (joined_lists inner_thrice
        (spline_points params.now px.now py.now tx.now ty.now)).xs) points.old }
{
    let given = joining::join_through_points(params, px, py, tx, ty, out_knots, out_xs, out_ys);
    put(given, points)
}
