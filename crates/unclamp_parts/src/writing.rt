// The unclamped curve in its parts, each written to a lent list.
ghost use Rattle.std.specs.Prelude.{true, ◌≡◌, ◌+◌, ◌≤◌, ◌<◌, length};
ghost use Rattle.lent.specs.Lent.{over};
ghost use Rattle.insertion.specs.Insertion.{entries};
ghost use Rattle.clamping.specs.EndRows.{finish_of};
ghost use Rattle.clamping.specs.Clamping.{whole_of};
ghost use Rattle.unclamping.specs.Unclamping.{open_knot, open_number, open_points, opens_on};
ghost use Rattle.unclamp_parts.specs.Standing.{KnotsEnding, fits};

use checked::Curve;
use unclamp_numbers::RightEnd;

// The k-th knot behind t_{n+1}.
fn new_knot(curve: Curve<'_>, k: usize) -> u16
    requires knots_ending { KnotsEnding curve.degree curve.knots.now (length curve.xs.now) }
    requires le_k { (1 ≤ k) × (k ≤ curve.degree) }
    ensures answer { result ≡ open_knot curve.entry.knots.now (length curve.entry.xs.now) (length curve.entry.xs.now + k) }
{
    let knots = curve.knots;
    let count = curve.xs.len();
    // `as`: k is at most 3, and no lossless conversion leads from usize to u16.
    knots[count] + (k as u16) * unclamp_numbers::span_width(knots, count - 1)
}

// The knots: those up to t_{n+1}, and m new ones.
pub fn write_knots(curve: Curve<'_>, out: &mut [u16])
    requires knots_ending { KnotsEnding curve.degree curve.knots.now (length curve.xs.now) }
    requires knots_in_bounds { length curve.knots.now ≤ length out.old }
    ensures result { out.new ≡ over (entries (open_knot curve.entry.knots.now (length curve.entry.xs.now)) (length curve.entry.knots.now)) out.old }
{
    let count = curve.xs.len();
    copying::copy_into(&curve.knots[..count + 1], out);
    for k in 1..curve.degree + 1 {
        out[count + k] = new_knot(curve, k);
    }
}

// The k-th point from the end.
fn new_point(end: RightEnd<'_>, k: usize) -> i32
    requires k_bound { k + 1 < end.degree }
    requires k_value { fits (open_number (finish_of end.knots.now end.points.now) end.degree k) ≡ true }
    ensures answer { result ≡ whole_of (open_number (finish_of end.entry.knots.now end.entry.points.now) end.entry.degree k) }
{
    insertion_parts::quotient(
        unclamp_numbers::above(end, k),
        unclamp_numbers::below(end, k),
    )
}

// The points of one axis: those in front, and the last m - 1.
// Inlined: a struct that is handed over in memory would take the stack past what the header tells.
#[inline(always)]
pub fn write_points(end: RightEnd<'_>, out: &mut [i32])
    requires ps_value { opens_on end.degree end.knots.now end.points.now ≡ true }
    requires ps_in_bounds { length end.points.now ≤ length out.old }
    ensures result { out.new ≡ over (open_points end.entry.degree end.entry.knots.now end.entry.points.now) out.old }
{
    let count = end.points.len();
    let front = count + 1 - end.degree;
    copying::copy_into(&end.points[..front], out);
    for j in front..count {
        out[j] = new_point(end, count - 1 - j);
    }
}
