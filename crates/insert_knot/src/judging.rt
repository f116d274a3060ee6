// Why an insertion into a curve that has passed the check is refused, whatever lists are lent: 9, 10, 11.
ghost use Rattle.std.specs.Prelude.{◌≡◌};
ghost use Rattle.refusal.specs.Answers.{number_in};
ghost use Rattle.checked.specs.Along.{lists_of};
ghost use Rattle.insertion.specs.Judged.{insertable_then, whole_ok};

use crate::asked::Asked;
use checked::Axis;
use refusal::Refusal;

// Whether every new coordinate is whole, on both axes.
fn whole_ok(asked: Asked<'_>) -> bool
    ensures answer { result ≡ whole_ok asked.entry.curve.degree (lists_of asked.entry.curve) asked.entry.v }
{
    asked.along(Axis::X).whole_points() && asked.along(Axis::Y).whole_points()
}

// Nothing, or the refusal of inserting the value that is asked.
pub(crate) fn judge(asked: Asked<'_>) -> Result<(), Refusal>
    ensures answer { number_in result ≡ insertable_then asked.entry.curve.degree (lists_of asked.entry.curve) asked.entry.v 0 }
{
    let curve = asked.curve;
    if insertion_parts::stands(curve.degree, curve.knots, asked.v, asked.at) {
        return Err(Refusal::Insertion);
    }
    if grid::POINTS_MOST <= curve.xs.len() {
        return Err(Refusal::Full);
    }
    if !whole_ok(asked) {
        return Err(Refusal::NotWhole);
    }
    Ok(())
}
