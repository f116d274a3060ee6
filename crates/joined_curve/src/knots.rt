// The knots.
ghost use Rattle.std.specs.Prelude.{List, ◌≡◌, ◌+◌, ◌-◌, ◌*◌, ◌≤◌, ℤ, length, replicate};
ghost use Rattle.std.proofs.lemmas.List.Edits.{sets};
ghost use Rattle.lent.specs.Lent.{over};
ghost use Rattle.spline_pieces.specs.Pieces.{pieces};
ghost use Rattle.joined_curve.specs.Curve.{end_knots, inner_of, joined_knots};

use crate::Meeting;
use spline_pieces::AxisPoints;

// A knot as often as an end value stands, from place `at` on. Four stores: one copy of an array of four was tried, and is slower.
fn put_knots(knot: u16, out: &mut [u16], at: usize)
    requires { at + 4 ≤ length out.old }
    ensures result { out.new ≡ sets out.old at (replicate end_knots knot) }
{
    out[at] = knot;
    out[at + 1] = knot;
    out[at + 2] = knot;
    out[at + 3] = knot;
}

// All knots, of which both axes have the same. Every parameter is written as an end value; the next one is written over what an inner one has too much.
pub fn write_knots(points: AxisPoints<'_>, meeting: Meeting, out: &mut [u16])
    requires params_in_bounds { inner_of meeting * (length points.params.now - 2) + 8
        ≤ length out.old }
    ensures result { (ps ds : List ℤ) → out.new
        ≡ over (joined_knots (inner_of meeting) (pieces points.entry.params.now ps ds)) out.old }
{
    let params = points.params;
    let inner = meeting.inner();
    put_knots(params[0], out, 0);
    let mut at = 4;
    for i in 0..params.len() - 1 {
        put_knots(params[i + 1], out, at);
        at += inner;
    }
}
