// The span that holds a whole parameter, found by walking the spans from the right; and whether the domain holds it.
#![tactic(auto)]

ghost use Rattle.std.specs.Prelude.{◌≡◌, get_or};
ghost use Rattle.span.specs.Span.{starts_at, span_of, in_domain, strictly_inside};

// Whether knot i is at most t and below the knot after it. Knots that are not there count as 0, so no span begins at them.
fn starts_at(knots: &[u16], i: usize, t: u32) -> bool
    ensures answer { result ≡ starts_at knots.now t 1 i }
{
    // One bound, the same for every i: so a turn of the search asks once whether both knots are there.
    i < knots.len().saturating_sub(1) && u32::from(knots[i]) <= t && knots[i] < knots[i + 1]
}

// The largest index from `degree` to `last` whose span begins at or before t and is not empty.
#[tactic(auto, using(crate::proofs::SpanLaws::span_turns))]
pub fn span_of(knots: &[u16], degree: usize, last: usize, t: u32) -> usize
    ensures answer { result ≡ span_of knots.now degree last t 1 }
{
    let mut i = last;
    // An `if` for each reason to stop: joined by || the proof of the turn did not close.
    loop {
        if i <= degree {
            break i;
        }
        if starts_at(knots, i, t) {
            break i;
        }
        i -= 1;
    }
}

// Knot i, or 0 where there is none.
pub fn knot_at(knots: &[u16], i: usize) -> u32
    ensures answer { result ≡ get_or knots.now i 0 }
{
    knots.get(i).map_or(0, |knot| u32::from(*knot))
}

// Whether t lies from knot `degree` to the knot after `last`, both included.
#[tactic(auto, unfolding(crate::specs::Span::in_domain))]
pub fn in_domain(knots: &[u16], degree: usize, last: usize, t: u32) -> bool
    ensures answer { result ≡ in_domain knots.now degree last t 1 }
{
    let end = if last < knots.len() {
        knot_at(knots, last + 1)
    } else {
        0
    };
    knot_at(knots, degree) <= t && t <= end
}

// Whether v lies strictly between knot `degree` and the knot after the last of `count` points.
#[tactic(auto, unfolding(crate::specs::Span::strictly_inside))]
pub fn strictly_inside(knots: &[u16], degree: usize, count: usize, v: u32) -> bool
    ensures answer { result ≡ strictly_inside knots.now degree count v }
{
    knot_at(knots, degree) < v && v < knot_at(knots, count)
}
