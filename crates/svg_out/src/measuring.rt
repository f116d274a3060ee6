// How long the path data of a curve with clamped ends is, unless an insertion is refused.
ghost use Rattle.std.specs.Prelude.{◌≡◌, ◌≤◌, length};
ghost use Rattle.checked.specs.Along.{lists_of};
ghost use Rattle.checked.specs.Checked.{Clamped};
ghost use Rattle.path_data.specs.Text.{part_text};
ghost use Rattle.path_data.specs.Sentences.{PieceOnGrid};
ghost use Rattle.svg_out.specs.Measure.{part_most, Measures};

use checked::Curve;
use cutting::Piece;
use refusal::Refusal;

// How long piece k is; the move to its start stands before the first.
fn part_length(m: usize, k: usize, piece: Piece) -> usize
    requires { (m ≤ 3) × PieceOnGrid m piece }
    ensures answer { (result ≡ length (part_text m k piece)) × (result ≤ part_most) }
{
    let segment = path_text::segment_length(m, piece);
    if k > 0 {
        return segment;
    }
    path_text::move_length(piece) + segment
}

// Walks over the pieces and adds up their lengths.
pub(crate) fn measure(curve: Curve<'_>) -> Result<usize, Refusal>
    requires { Clamped curve.degree curve.knots.now (length curve.xs.now) }
    ensures answer { Measures curve.entry.degree (lists_of curve.entry) result }
{
    let mut walk = pieces::start(curve.degree, curve.xs, curve.ys);
    let mut length = 0;
    // A while, since a step goes on by as many knots as a value has.
    while walk.span < curve.xs.len() {
        let (piece, next) = pieces::next_piece(curve, walk)?;
        length += part_length(curve.degree, walk.index, piece);
        walk = next;
    }
    Ok(length)
}
