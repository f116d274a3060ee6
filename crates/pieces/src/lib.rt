// The pieces of a curve, one at a time from left to right ("Out to SVG"): a walk stands at a span, and a step hands out the span's piece, by value, and the walk
// to the next span. A step looks at the points of one span alone, so that all pieces take time in proportion to the lists.
#![tactic(auto)]

mod inner;
mod loading;
mod runs;

ghost use Rattle.std.specs.Prelude.{◌≡◌, List, ℕ, ◌+◌, length};
ghost use Rattle.curve.specs.Lists.{lists};
ghost use Rattle.grid.specs.Check.{Passes};
ghost use Rattle.checked.specs.Along.{lists_of};
ghost use Rattle.checked.specs.Checked.{Clamped};
ghost use Rattle.pieces.specs.Walk.{AtSpan, Handed, Hands};

use checked::Curve;
use cutting::Piece;
use refusal::Refusal;

// Where a walk stands: the number of pieces behind it, the index of the span's low knot, the points of the whole curve so far, and those that carry the span.
#[derive(Clone, Copy, PartialEq, Eq, Debug)]
pub struct Walk {
    pub index: usize,
    pub span: usize,
    pub points: usize,
    pub xs: [i32; 4],
    pub ys: [i32; 4],
}

// The walk at the first span. The points alone, and no checked curve: it reads no knot.
pub fn start(m: usize, xs: &[i32], ys: &[i32]) -> Walk
    requires { (ts : List ℕ) × Passes m ts xs.now ys.now }
    ensures answer { (ts : List ℕ) → Passes m ts xs.now ys.now → Clamped m ts (length xs.now) → AtSpan m (lists ts xs.now ys.now) result }
    ensures first { result.index ≡ 0 }
{
    let width = m + 1;
    Walk {
        index: 0,
        span: m,
        points: xs.len(),
        xs: loading::loaded(xs, 0, width),
        ys: loading::loaded(ys, 0, width),
    }
}

// The piece of the last span, with which the walk leaves the curve.
fn last_piece(curve: Curve<'_>, walk: Walk) -> (Piece, Walk)
    requires { AtSpan curve.degree (lists curve.knots.now curve.xs.now curve.ys.now) walk × (walk.span + 1 ≡ length curve.xs.now) }
    ensures answer { Handed curve.entry.degree (lists_of curve.entry) walk result.0 result.1 }
{
    let i = walk.span;
    let xs = walk.xs;
    let ys = walk.ys;
    let piece = Piece {
        low: curve.knots[i],
        high: curve.knots[i + 1],
        xs,
        ys,
    };
    let next = Walk {
        index: walk.index + 1,
        span: i + 1,
        points: walk.points,
        xs,
        ys,
    };
    (piece, next)
}

// The piece of the span where the walk stands, and the walk at the next; or why an insertion there is refused.
pub fn next_piece(curve: Curve<'_>, walk: Walk) -> Result<(Piece, Walk), Refusal>
    requires { AtSpan curve.degree (lists curve.knots.now curve.xs.now curve.ys.now) walk }
    ensures answer { Hands curve.entry.degree (lists_of curve.entry) walk result }
{
    if walk.span + 1 == curve.xs.len() {
        return Ok(last_piece(curve, walk));
    }
    inner::inner_piece(curve, walk)
}
