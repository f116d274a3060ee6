// Compacting a curve ("Inserting and removing a knot"): the call, for any input.
#![tactic(auto)]

ghost use Rattle.std.specs.Prelude.{◌≤◌, length};
ghost use Rattle.curve.specs.Lists.{lists};
ghost use Rattle.checked.specs.Along.{lists_of};
ghost use Rattle.work_lists.specs.Outcome.{WorkOutcome};
ghost use Rattle.compact.specs.Outcome.{CompactOutcome};
ghost use Rattle.compact.specs.Sizes.{short_points};

use checked::Curve;
use curve::Lent;
use refusal::Refusal;

// The points that the short work lists hold; the longest hold any curve. A new list is cleared, which takes time in proportion to its
// length, and for a few points the longest would take more than all the rest. A curve has at most four knots more than points.
const SHORT: usize = 64;

const SHORT_KNOTS: usize = SHORT + 4;

const LONGEST: usize = grid::POINTS_MOST;

const LONGEST_KNOTS: usize = LONGEST + 4;

// One pass in the short work lists, of a curve that they hold.
fn compact_short(
    curve: Curve<'_>,
    out_knots: &mut [u16],
    out_xs: &mut [i32],
    out_ys: &mut [i32],
) -> Result<usize, Refusal>
    requires xs_len_bound { length curve.xs.now ≤ short_points }
    ensures answer { WorkOutcome curve.entry.degree (lists_of curve.entry)
        (lists out_knots.old out_xs.old out_ys.old) result
        (lists out_knots.new out_xs.new out_ys.new) }
{
    work_lists::compact_in::<SHORT_KNOTS, SHORT>(curve, out_knots, out_xs, out_ys)
}

// One pass of removals; what is left goes to the three lent lists, and the answer is the number of knots that went. A refusal leaves the lists as they
// were found. A curve with no inner knot, of which nothing can go, needs no work lists.
pub fn compact(
    degree: u32,
    knots: &[u16],
    xs: &[i32],
    ys: &[i32],
    out_knots: &mut [u16],
    out_xs: &mut [i32],
    out_ys: &mut [i32],
) -> Result<usize, Refusal>
    ensures answer { CompactOutcome degree (lists knots.now xs.now ys.now)
        (lists out_knots.old out_xs.old out_ys.old) result
        (lists out_knots.new out_xs.new out_ys.new) }
{
    let curve = Curve::check(degree, knots, xs, ys)?;
    if xs.len() == curve.degree + 1 {
        let into = Lent {
            knots: out_knots,
            xs: out_xs,
            ys: out_ys,
        };
        into.receive(knots, xs, ys)?;
        return Ok(0);
    }
    if xs.len() <= SHORT {
        return compact_short(curve, out_knots, out_xs, out_ys);
    }
    work_lists::compact_in::<LONGEST_KNOTS, LONGEST>(curve, out_knots, out_xs, out_ys)
}
