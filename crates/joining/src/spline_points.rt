// Row 17: how many spline points there are, and whether the parameters rise.
ghost use Rattle.std.specs.Prelude.{◌≡◌};
ghost use Rattle.joining.specs.SplinePoints.{spline_points, rises_strictly_from, counts_agree, spline_points_ok};

// All five lists have one length.
#[tactic(auto, unfolding(crate::specs::SplinePoints::counts_agree))]
fn counts_agree(params: &[u16], xs: &[i32], ys: &[i32], dxs: &[i32], dys: &[i32]) -> bool
    ensures answer { result
        ≡ counts_agree (spline_points params.now xs.now ys.now dxs.now dys.now) }
{
    let count = params.len();
    xs.len() == count && ys.len() == count && dxs.len() == count && dys.len() == count
}

// Strictly rising, none above the largest knot.
#[tactic(auto, using(crate::proofs::RisingLaws::parameter_turn))]
fn rises_strictly(params: &[u16]) -> bool
    ensures answer { result ≡ rises_strictly_from 0 params.now }
{
    let mut low: u16 = 0;
    for s in params {
        if *s < low {
            return false;
        }
        if grid::KNOT_MOST < *s {
            return false;
        }
        low = *s + 1;
    }
    true
}

// Row 17.
#[tactic(auto, unfolding(crate::specs::SplinePoints::spline_points_ok, crate::specs::SplinePoints::spline_count_ok))]
pub(crate) fn spline_points_ok(
    params: &[u16],
    xs: &[i32],
    ys: &[i32],
    dxs: &[i32],
    dys: &[i32],
) -> bool
    ensures answer { result
        ≡ spline_points_ok (spline_points params.now xs.now ys.now dxs.now dys.now) }
{
    grid::SPLINE_POINTS_LEAST <= params.len()
        && params.len() <= grid::SPLINE_POINTS_MOST
        && counts_agree(params, xs, ys, dxs, dys)
        && rises_strictly(params)
}
