// The control points of one axis.
ghost use Rattle.std.specs.Prelude.{true, [], ◌∷◌, ◌≡◌, ◌+◌, ◌-◌, ◌*◌, ◌≤◌, ◌<◌, length};
ghost use Rattle.std.proofs.lemmas.List.Edits.{sets};
ghost use Rattle.lent.specs.Lent.{over};
ghost use Rattle.grid.specs.Rows.{on_grid};
ghost use Rattle.spline_pieces.specs.Pieces.{piece_at, pieces, all_pieces_on_grid};
ghost use Rattle.joined_curve.specs.Curve.{inner_of, joined_points};

use crate::Meeting;
use spline_pieces::AxisPoints;

// A number of the grid in the type of coordinates: no From leads to a narrower type.
fn narrowed(z: i64) -> i32
    requires { on_grid z ≡ true }
    ensures answer { result ≡ z }
{
    z as i32
}

// The points of piece i after its start, from place `at` on.
fn put_piece(points: AxisPoints<'_>, i: usize, out: &mut [i32], at: usize)
    requires points_value { all_pieces_on_grid (pieces points.params.now points.ps.now points.ds.now) ≡ true }
    requires i_in_bounds { (i + 1 < length points.params.now) × (at + 3 ≤ length out.old) }
    ensures result { out.new
        ≡ sets out.old at ((piece_at points.entry.params.now points.entry.ps.now points.entry.ds.now i).leaving
        ∷ (piece_at points.entry.params.now points.entry.ps.now points.entry.ds.now i).arriving
        ∷ (piece_at points.entry.params.now points.entry.ps.now points.entry.ds.now i).end ∷ []) }
{
    out[at] = narrowed(points.leaving(i));
    out[at + 1] = narrowed(points.arriving(i));
    out[at + 2] = points.ps[i + 1];
}

// All points. Every piece is written as the last one; the next one is written over its end where the meeting point drops out.
pub fn write_points(points: AxisPoints<'_>, meeting: Meeting, out: &mut [i32])
    requires points_value { all_pieces_on_grid (pieces points.params.now points.ps.now points.ds.now) ≡ true }
    requires params_in_bounds { inner_of meeting * (length points.params.now - 2) + 4
        ≤ length out.old }
    ensures result { out.new
        ≡ over (joined_points (inner_of meeting)
        (pieces points.entry.params.now points.entry.ps.now points.entry.ds.now)) out.old }
{
    let inner = meeting.inner();
    out[0] = points.ps[0];
    let mut at = 1;
    for i in 0..points.params.len() - 1 {
        put_piece(points, i, out, at);
        at += inner;
    }
}
