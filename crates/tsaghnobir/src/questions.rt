// What can be asked of a curve: whether it is one, its point and carrying points at a parameter, and the spans on which a cutter may meet a clamp.
ghost use Rattle.std.specs.Prelude.{◌≡◌, length};
ghost use Rattle.curve.specs.Lists.{lists};
ghost use Rattle.grid.specs.Check.{check_number};
ghost use Rattle.refusal.specs.Answers.{Answers};
ghost use Rattle.domain.specs.Parameter.{parameter_number};
ghost use Rattle.point_at.specs.Point.{point_of};
ghost use Rattle.boxes.specs.Widening.{widened};
ghost use Rattle.span_walk.specs.SpansMet.{spans_met};
ghost use Rattle.span_walk.specs.SpanLists.{span_lists, knots_met, spans_handed_over};
ghost use Rattle.spans_met.specs.Answer.{list_number};
ghost use Rattle.tsaghnobir.specs.Places.{placed, first_carrying, clamp_of};

use crate::places::put;
use boxes::Rectangle;
use point_at::PointAnswer;
use refusal::Refusal;

pub fn tsb_check(degree: u32, knots: &[u16], xs: &[i32], ys: &[i32]) -> u32
    ensures answer { result ≡ check_number degree knots.now xs.now ys.now }
{
    refusal::number(grid::check(degree, knots, xs, ys))
}

pub fn tsb_point(
    degree: u32,
    knots: &[u16],
    xs: &[i32],
    ys: &[i32],
    t: u32,
    x: &mut f64,
    y: &mut f64,
) -> u32
    ensures answer { result ≡ parameter_number degree knots.now xs.now ys.now t }
    ensures result { (x.new ≡ placed result (point_of degree knots.now xs.now ys.now t).x x.old)
        × (y.new ≡ placed result (point_of degree knots.now xs.now ys.now t).y y.old) }
{
    let answer = point_at::point_at(degree, knots, xs, ys, t);
    match answer {
        PointAnswer::At(place) => {
            *x = place.x;
            *y = place.y;
            0
        }
        PointAnswer::Refused(number) => number,
    }
}

// Where the carrying points of t begin in both coordinate lists.
fn first_of(degree: u32, knots: &[u16], xs: &[i32], ys: &[i32], t: u32) -> Result<usize, Refusal>
    ensures answer { Answers (parameter_number degree knots.now xs.now ys.now t) (first_carrying degree knots.now xs.now t) result }
{
    let curve = domain::check_parameter(degree, knots, xs, ys, t)?;
    let i = span::span_of(curve.knots, curve.degree, curve.xs.len() - 1, t);
    Ok(i - curve.degree)
}

// The carrying points of t are the entries `first` to `first` + `degree` of both coordinate lists.
pub fn tsb_carrying(
    degree: u32,
    knots: &[u16],
    xs: &[i32],
    ys: &[i32],
    t: u32,
    first: &mut usize,
) -> u32
    ensures answer { result ≡ parameter_number degree knots.now xs.now ys.now t }
    ensures count { first.new ≡ placed result (first_carrying degree knots.now xs.now t) first.old }
{
    let answer = first_of(degree, knots, xs, ys, t);
    put(answer, first)
}

pub fn tsb_spans(
    degree: u32,
    knots: &[u16],
    xs: &[i32],
    ys: &[i32],
    low_x: i32,
    high_x: i32,
    low_y: i32,
    high_y: i32,
    radius: u32,
    lows: &mut [u16],
    highs: &mut [u16],
    count: &mut usize,
) -> u32
    ensures answer { result ≡ list_number degree (lists knots.now xs.now ys.now) (clamp_of low_x high_x low_y high_y)
        radius (span_lists lows.old highs.old) }
    ensures result { span_lists lows.new highs.new
        ≡ spans_handed_over result (knots_met (widened radius (clamp_of low_x high_x low_y high_y)) degree knots.now xs.now ys.now)
        (span_lists lows.old highs.old) }
    ensures count { count.new ≡ placed result (length (spans_met (widened radius (clamp_of low_x high_x low_y high_y)) degree
        knots.now xs.now ys.now)) count.old }
{
    let clamp = Rectangle {
        low_x,
        high_x,
        low_y,
        high_y,
    };
    let answer = spans_met::list_spans_met(degree, knots, xs, ys, clamp, radius, lows, highs);
    put(answer, count)
}
