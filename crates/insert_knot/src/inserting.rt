// The insertion into a curve that has passed the check: the place of v is searched once, for judging and for writing.
ghost use Rattle.curve.specs.Lists.{lists};
ghost use Rattle.checked.specs.Along.{lists_of};
ghost use Rattle.insert_knot.specs.Answer.{InsertOutcome};

use crate::asked::Asked;
use crate::judging::judge;
use crate::writing::write;
use checked::Curve;
use curve::Lent;
use refusal::Refusal;

// Inserts v, or refuses it by 9, 10, 11 or 15 and leaves the lent lists as they were found.
pub(crate) fn insert_checked(curve: Curve<'_>, v: u32, into: Lent<'_>) -> Result<usize, Refusal>
    ensures answer { InsertOutcome curve.entry.degree (lists_of curve.entry) v
        (lists into.entry.knots.now into.entry.xs.now into.entry.ys.now) result
        (lists into.exit.0.now into.exit.1.0.now into.exit.1.1.0.now) }
{
    if !span::strictly_inside(curve.knots, curve.degree, curve.xs.len(), v) {
        return Err(Refusal::Insertion);
    }
    // `as`: v lies between two knots, and no From leads to a narrower type.
    let v = v as u16;
    let at = insertion_parts::knots_up_to(curve.knots, v);
    let asked = Asked { curve, v, at };
    judge(asked)?;
    let count = curve.xs.len() + 1;
    into.room(curve.knots.len() + 1, count, curve.ys.len() + 1)?;
    // Taken apart: where it is handed on whole, the check loses sight of the lists that a refusal leaves.
    let Lent { knots, xs, ys } = into;
    write(asked, knots, xs, ys);
    Ok(count)
}
