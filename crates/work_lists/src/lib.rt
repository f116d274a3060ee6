// Compacting a curve that has passed the check ("Inserting and removing a knot"), in work lists of a size that the caller chooses.
#![tactic(auto)]

ghost use Rattle.std.specs.Prelude.{◌≡◌, ◌+◌, ◌≤◌, length};
ghost use Rattle.grid.specs.Limits.{points_most};
ghost use Rattle.curve.specs.Lists.{lists};
ghost use Rattle.checked.specs.Along.{lists_of};
ghost use Rattle.work_lists.specs.Outcome.{WorkOutcome};

use checked::Curve;
use curve::Lent;
use refusal::Refusal;

// One pass in work lists for N points and for N + 4 knots, which are K; the result is handed over where there is room for it. Answers how many
// knots went. The three lists stand alone here: of a Lent that is handed on twice the check loses sight.
pub fn compact_in<const K: usize, const N: usize>(
    curve: Curve<'_>,
    out_knots: &mut [u16],
    out_xs: &mut [i32],
    out_ys: &mut [i32],
) -> Result<usize, Refusal>
    requires size { (K ≡ N + 4) × (N ≤ points_most) }
    requires xs_in_bounds { length curve.xs.now ≤ N }
    ensures answer { WorkOutcome curve.entry.degree (lists_of curve.entry)
        (lists out_knots.old out_xs.old out_ys.old) result
        (lists out_knots.new out_xs.new out_ys.new) }
{
    let mut work_knots = [0u16; K];
    let mut work_xs = [0i32; N];
    let mut work_ys = [0i32; N];
    let knots = &mut work_knots[..];
    let xs = &mut work_xs[..];
    let ys = &mut work_ys[..];
    let left = compaction_pass::compact_into(curve, Lent { knots, xs, ys });
    let count = left + curve.degree + 1;
    let into = Lent {
        knots: out_knots,
        xs: out_xs,
        ys: out_ys,
    };
    into.receive(&knots[..count], &xs[..left], &ys[..left])?;
    Ok(curve.xs.len() - left)
}
