// The spans of a curve that has passed the check: which are to be checked against a clamp, and how many are not empty.
#![tactic(auto)]

ghost use Rattle.std.specs.Prelude.{◌≡◌, ◌≤◌, ◌<◌, length};
ghost use Rattle.grid.specs.Sizes.{Sizes};
ghost use Rattle.span.specs.Span.{carrying_of};
ghost use Rattle.boxes.specs.Meeting.{meets_on_axis};
ghost use Rattle.span_walk.specs.SpansMet.{box_meets, to_check, span_count};

use boxes::Rectangle;

// Whether the box of span i meets a range of one axis.
fn box_meets_on_axis(ps: &[i32], m: usize, i: usize, low: i32, high: i32) -> bool
    requires { (m ≤ i) × (i < length ps.now) }
    ensures answer { result ≡ meets_on_axis low high (carrying_of m i ps.now) }
{
    boxes::meets_on_axis(&ps[i - m..i + 1], low, high)
}

// Whether the box of span i meets the clamp.
#[tactic(auto, unfolding(crate::specs::SpansMet::box_meets))]
fn box_meets(xs: &[i32], ys: &[i32], m: usize, i: usize, clamp: Rectangle) -> bool
    requires { (m ≤ i) × (i < length xs.now) × (i < length ys.now) }
    ensures answer { result ≡ box_meets clamp m xs.now ys.now i }
{
    box_meets_on_axis(xs, m, i, clamp.low_x, clamp.high_x)
        && box_meets_on_axis(ys, m, i, clamp.low_y, clamp.high_y)
}

// Whether span i is not empty and its box meets the clamp. Lists, and no checked curve: it asks for their sizes alone.
pub fn meets(knots: &[u16], xs: &[i32], ys: &[i32], m: usize, i: usize, clamp: Rectangle) -> bool
    requires { Sizes m knots.now xs.now ys.now × (m ≤ i) × (i < length xs.now) }
    ensures answer { result ≡ to_check clamp m knots.now xs.now ys.now i }
{
    knots[i] < knots[i + 1] && box_meets(xs, ys, m, i, clamp)
}

// How many spans are not empty.
#[tactic(auto, using(crate::proofs::KeepLaws::counting), unfolding(crate::specs::SpansMet::span_count))]
pub fn count_spans(knots: &[u16], m: usize, count: usize) -> usize
    requires { (m ≤ count) × (count < length knots.now) }
    ensures count { result ≡ span_count m knots.now count }
{
    let mut so_far: usize = 0;
    for k in m..count {
        if knots[k] < knots[k + 1] {
            so_far += 1;
        }
    }
    so_far
}
