// Spline points that can be joined, as a value that has passed the tests for it.
ghost use Rattle.std.specs.Prelude.{◌&&◌, ◌≡◌, IfOk};
ghost use Rattle.refusal.specs.Answers.{number_in};
ghost use Rattle.grid.specs.Rows.{range_ok};
ghost use Rattle.spline_pieces.specs.Pieces.{pieces, all_whole, all_pieces_on_grid};
ghost use Rattle.joining.specs.SplinePoints.{spline_points};
ghost use Rattle.joining.specs.Answer.{joinable_then};

use crate::spline_points::spline_points_ok;
use refusal::Refusal;
use spline_pieces::AxisPoints;

// Row 7, of points and tangents.
fn in_range(xs: &[i32], ys: &[i32], dxs: &[i32], dys: &[i32]) -> bool
    ensures answer { result ≡ (range_ok xs.now ys.now && range_ok dxs.now dys.now) }
{
    grid::range_ok(xs, ys) && grid::range_ok(dxs, dys)
}

// Row 11, on both axes.
fn whole(x: AxisPoints<'_>, y: AxisPoints<'_>) -> bool
    ensures answer { result
        ≡ (all_whole (pieces x.entry.params.now x.entry.ps.now x.entry.ds.now)
        && all_whole (pieces y.entry.params.now y.entry.ps.now y.entry.ds.now)) }
{
    x.all_whole() && y.all_whole()
}

// Row 18, on both axes.
fn on_grid(x: AxisPoints<'_>, y: AxisPoints<'_>) -> bool
    ensures answer { result
        ≡ (all_pieces_on_grid (pieces x.entry.params.now x.entry.ps.now x.entry.ds.now)
        && all_pieces_on_grid (pieces y.entry.params.now y.entry.ps.now y.entry.ds.now)) }
{
    x.all_pieces_on_grid() && y.all_pieces_on_grid()
}

// Spline points that none of 17, 7, 11, 18 refuses, axis by axis; both axes have the same parameters.
#[derive(Clone, Copy)]
pub(crate) struct SplinePoints<'a> {
    pub x: AxisPoints<'a>,
    pub y: AxisPoints<'a>,
    pub ghost same: { y.params.now ≡ x.params.now },
    pub ghost passes: { joinable_then (spline_points x.params.now x.ps.now y.ps.now x.ds.now y.ds.now) 0 ≡ 0 },
}

impl<'a> SplinePoints<'a> {
    // The spline points, or the refusal of the first of 17, 7, 11, 18 that applies.
    #[tactic(auto, unfolding(crate::specs::Answer::joinable_then))]
    pub(crate) fn check(
        params: &'a [u16],
        xs: &'a [i32],
        ys: &'a [i32],
        dxs: &'a [i32],
        dys: &'a [i32],
    ) -> Result<SplinePoints<'a>, Refusal>
        ensures answer { number_in result
            ≡ joinable_then (spline_points params.now xs.now ys.now dxs.now dys.now) 0 }
        ensures result { IfOk result (λ s. (s.x.params.now ≡ params.entry.now)
            × (s.x.ps.now ≡ xs.entry.now) × (s.y.ps.now ≡ ys.entry.now)
            × (s.x.ds.now ≡ dxs.entry.now) × (s.y.ds.now ≡ dys.entry.now)) }
    {
        if !spline_points_ok(params, xs, ys, dxs, dys) {
            return Err(Refusal::SplinePoints);
        }
        if !in_range(xs, ys, dxs, dys) {
            return Err(Refusal::Range);
        }
        let x = AxisPoints {
            params,
            ps: xs,
            ds: dxs,
        };
        let y = AxisPoints {
            params,
            ps: ys,
            ds: dys,
        };
        if !whole(x, y) {
            return Err(Refusal::NotWhole);
        }
        if !on_grid(x, y) {
            return Err(Refusal::JoinedRange);
        }
        Ok(SplinePoints { x, y })
    }
}
