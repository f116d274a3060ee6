// The parts of path data, written by a pen.
ghost use Rattle.std.specs.Prelude.{◌≡◌, ◌+◌, ◌≤◌, length};
ghost use Rattle.digits.specs.Put.{Put};
ghost use Rattle.path_data.specs.Text.{pairs_text, move_text, segment_text};

use cutting::Piece;
use digits::Pen;
use path_words::{put_letter, put_pair};

// Writes the points behind the first of a piece.
fn put_pairs(pen: &mut Pen<'_>, m: usize, piece: Piece)
    requires m_bound { m ≤ 3 }
    requires m_in_bounds { pen.old.at + length (pairs_text piece.xs piece.ys 1 m) ≤ length pen.old.out.now }
    ensures result { Put pen.old.out.now pen.old.at (pairs_text piece.xs piece.ys 1 m) pen.new.out.now pen.new.at }
    ensures name { pen.new.out.ghost_name ≡ pen.old.out.ghost_name }
{
    for k in 1..m + 1 {
        put_pair(pen, piece.xs[k], piece.ys[k]);
    }
}

// Writes the move to the first point of a piece.
pub fn put_move(pen: &mut Pen<'_>, piece: Piece)
    requires { pen.old.at + length (move_text piece) ≤ length pen.old.out.now }
    ensures result { Put pen.old.out.now pen.old.at (move_text piece) pen.new.out.now pen.new.at }
    ensures name { pen.new.out.ghost_name ≡ pen.old.out.ghost_name }
{
    pen.byte(b'M');
    put_pair(pen, piece.xs[0], piece.ys[0]);
}

// Writes a piece of degree m.
pub fn put_segment(pen: &mut Pen<'_>, m: usize, piece: Piece)
    requires m_bound { m ≤ 3 }
    requires piece_in_bounds { pen.old.at + length (segment_text m piece) ≤ length pen.old.out.now }
    ensures result { Put pen.old.out.now pen.old.at (segment_text m piece) pen.new.out.now pen.new.at }
    ensures name { pen.new.out.ghost_name ≡ pen.old.out.ghost_name }
{
    put_letter(pen, m);
    put_pairs(pen, m, piece);
}
