// Writing the spans to check into two lent lists.
#![tactic(auto)]

ghost use Rattle.std.specs.Prelude.{◌≡◌, ◌≤◌, length};
ghost use Rattle.refusal.specs.Numbers.{accepted};
ghost use Rattle.grid.specs.Sizes.{Sizes};
ghost use Rattle.span_walk.specs.SpansMet.{spans_met, span_count};
ghost use Rattle.span_walk.specs.SpanLists.{span_lists, knots_met, spans_handed_over};

use boxes::Rectangle;

// Write the two knots of each span that may meet the clamp, in rising order, and count them. Lists, and no checked curve: it asks for their sizes alone.
pub fn list_met(
    knots: &[u16],
    xs: &[i32],
    ys: &[i32],
    m: usize,
    clamp: Rectangle,
    lows: &mut [u16],
    highs: &mut [u16],
) -> usize
    requires sizes { Sizes m knots.now xs.now ys.now }
    requires room { (span_count m knots.now (length xs.now) ≤ length lows.old)
        × (span_count m knots.now (length xs.now) ≤ length highs.old) }
    ensures count { result ≡ length (spans_met clamp m knots.now xs.now ys.now) }
    ensures result { span_lists lows.new highs.new
        ≡ spans_handed_over accepted (knots_met clamp m knots.now xs.now ys.now)
        (span_lists lows.old highs.old) }
{
    let mut at = 0;
    for i in m..xs.len() {
        if span_walk::meets(knots, xs, ys, m, i, clamp) {
            lows[at] = knots[i];
            highs[at] = knots[i + 1];
            at += 1;
        }
    }
    at
}
