// How long the parts of path data are.
ghost use Rattle.std.specs.Prelude.{◌≡◌, ◌*◌, ◌≤◌, length};
ghost use Rattle.path_data.specs.Text.{pairs_text, move_text, segment_text};

use cutting::Piece;
use path_words::pair_length;

// The points behind the first of a piece.
fn pairs_length(m: usize, piece: Piece) -> usize
    requires { m ≤ 3 }
    ensures answer { (result ≡ length (pairs_text piece.xs piece.ys 1 m)) × (result ≤ 24 * m) }
{
    let mut total = 0;
    for k in 1..m + 1 {
        total += pair_length(piece.xs[k], piece.ys[k]);
    }
    total
}

// The move to the first point of a piece.
pub fn move_length(piece: Piece) -> usize
    ensures answer { result ≡ length (move_text piece) }
    ensures most { result ≤ 25 }
{
    pair_length(piece.xs[0], piece.ys[0]) + 1
}

// A piece of degree m.
pub fn segment_length(m: usize, piece: Piece) -> usize
    requires { m ≤ 3 }
    ensures answer { result ≡ length (segment_text m piece) }
{
    pairs_length(m, piece) + 2
}
