// The path data of a curve with clamped ends whose insertions are all accepted, written.
ghost use Rattle.std.specs.Prelude.{◌≡◌, ◌+◌, ◌≤◌, length};
ghost use Rattle.lent.specs.Lent.{over};
ghost use Rattle.curve.specs.Lists.{lists};
ghost use Rattle.checked.specs.Along.{lists_of};
ghost use Rattle.checked.specs.Checked.{Clamped};
ghost use Rattle.cutting.specs.Cutting.{cuts, insertable_each_then};
ghost use Rattle.digits.specs.Put.{Put};
ghost use Rattle.path_data.specs.Text.{part_text};
ghost use Rattle.svg_out.specs.Svg.{pieces_text};

use checked::Curve;
use cutting::Piece;
use digits::Pen;

// Writes piece k; the move to its start stands before the first.
fn put_part(pen: &mut Pen<'_>, m: usize, k: usize, piece: Piece)
    requires m_bound { m ≤ 3 }
    requires piece_in_bounds { pen.old.at + length (part_text m k piece) ≤ length pen.old.out.now }
    ensures result { Put pen.old.out.now pen.old.at (part_text m k piece) pen.new.out.now pen.new.at }
    ensures name { pen.new.out.ghost_name ≡ pen.old.out.ghost_name }
{
    if k == 0 {
        path_text::put_move(pen, piece);
    }
    path_text::put_segment(pen, m, piece);
}

// Walks over the pieces and writes one behind the other.
pub(crate) fn put_path(curve: Curve<'_>, out: &mut [u8])
    requires clamped { Clamped curve.degree curve.knots.now (length curve.xs.now) }
    requires accepted { insertable_each_then curve.degree (cuts curve.degree (lists curve.knots.now curve.xs.now curve.ys.now)) (lists curve.knots.now curve.xs.now curve.ys.now) 0 ≡ 0 }
    requires room { length (pieces_text curve.degree (lists curve.knots.now curve.xs.now curve.ys.now)) ≤ length out.old }
    ensures result { out.new ≡ over (pieces_text curve.entry.degree (lists_of curve.entry)) out.old }
{
    let mut pen = Pen { out, at: 0 };
    let mut walk = pieces::start(curve.degree, curve.xs, curve.ys);
    // A while, since a step goes on by as many knots as a value has.
    while walk.span < curve.xs.len() {
        let Ok((piece, next)) = pieces::next_piece(curve, walk) else {
            return; // never: measuring was refused nothing
        };
        put_part(&mut pen, curve.degree, walk.index, piece);
        walk = next;
    }
}
