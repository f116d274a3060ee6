// The piece of a span that is not the last one.
ghost use Rattle.std.specs.Prelude.{◌+◌, ◌≤◌, ◌<◌, length};
ghost use Rattle.curve.specs.Lists.{lists};
ghost use Rattle.grid.specs.Limits.{points_most};
ghost use Rattle.insertion.specs.Insertion.{point_at};
ghost use Rattle.checked.specs.Along.{lists_of};
ghost use Rattle.cut_rows.specs.Row.{Pushed};
ghost use Rattle.pieces.specs.Walk.{AtSpan, Hands, Opened, Closed};

use crate::Walk;
use crate::loading::loaded;
use crate::runs::run_behind;
use checked::Curve;
use cut_steps::{Axis, Cut};
use cutting::Piece;
use refusal::Refusal;

// The span as the walk has it, nothing inserted yet, with the s points behind it.
fn opened(xs: &[i32], ys: &[i32], walk: Walk, s: usize) -> Cut
    requires { (s ≤ 4) × (walk.span + 1 + s ≤ length xs.now) × (walk.span + 1 + s ≤ length ys.now) }
    ensures answer { Opened xs.now ys.now walk s result }
{
    let behind = walk.span + 1;
    let row_x = walk.xs;
    let row_y = walk.ys;
    Cut {
        points: walk.points,
        x: Axis {
            row: row_x,
            behind: loaded(xs, behind, s),
        },
        y: Axis {
            row: row_y,
            behind: loaded(ys, behind, s),
        },
    }
}

// One axis at the next span: the last point of the row and those behind it.
fn turned(axis: Axis, m: usize) -> [i32; 4]
    requires { m ≤ 3 }
    ensures answer { Pushed (point_at axis.row m) axis.behind result }
{
    cut_rows::pushed(axis.row[m], axis.behind)
}

// What is handed out of a span from `low` to `high`, whose high knot stood s times, when its insertions are done.
fn closed(walk: Walk, m: usize, low: u16, high: u16, s: usize, cut: Cut) -> (Piece, Walk)
    requires { (m ≤ 3) × (s ≤ 4) × (walk.index ≤ points_most) × (walk.span ≤ points_most) }
    ensures answer { Closed walk m low high s cut result.0 result.1 }
{
    let xs = cut.x.row;
    let ys = cut.y.row;
    let piece = Piece { low, high, xs, ys };
    let next = Walk {
        index: walk.index + 1,
        span: walk.span + s,
        points: cut.points,
        xs: turned(cut.x, m),
        ys: turned(cut.y, m),
    };
    (piece, next)
}

// The high knot is inserted until it stands m times, and the piece is handed out.
pub(crate) fn inner_piece(curve: Curve<'_>, walk: Walk) -> Result<(Piece, Walk), Refusal>
    requires { AtSpan curve.degree (lists curve.knots.now curve.xs.now curve.ys.now) walk × (walk.span + 1 < length curve.xs.now) }
    ensures answer { Hands curve.entry.degree (lists_of curve.entry) walk result }
{
    let m = curve.degree;
    let knots = curve.knots;
    let i = walk.span;
    let s = run_behind(knots, i);
    let begun = opened(curve.xs, curve.ys, walk, s);
    let cut = cut_steps::insert_rest(begun, m, knots, i, s)?;
    Ok(closed(walk, m, knots[i], knots[i + 1], s, cut))
}
