// The first points of a curve, where no inner knot has come yet.
ghost use Rattle.std.specs.Prelude.{◌+◌, ◌≡◌, length, get_or, take};
ghost use Rattle.lent.specs.Lent.{over};
ghost use Rattle.insertion.specs.Insertion.{knots_up_to};

use checked::Curve;

// As many as there are knots up to t_m. The left end of the domain may come again behind t_m, and its knots are no inner ones: none of them may go.
fn first_points(curve: Curve<'_>) -> usize
    ensures answer { result ≡ knots_up_to (get_or curve.entry.knots.now curve.entry.degree 0) curve.entry.knots.now }
{
    insertion_parts::knots_up_to(curve.knots, curve.knots[curve.degree])
}

// The first points and their knots, at the front of the lent lists. Answers how many points these are. Three lists: tried over a Lent, and the start of
// the caller's loop did not close.
#[tactic(auto, using(crate::proofs::FirstLaws::first_reach))]
pub(crate) fn copy_first(
    curve: Curve<'_>,
    knots: &mut [u16],
    xs: &mut [i32],
    ys: &mut [i32],
) -> usize
    ensures answer { result ≡ knots_up_to (get_or curve.entry.knots.now curve.entry.degree 0) curve.entry.knots.now }
    ensures result { (knots.new
        ≡ over (take (length knots.old) (take (result + curve.entry.degree + 1) curve.entry.knots.now)) knots.old)
        × (xs.new ≡ over (take (length xs.old) (take result curve.entry.xs.now)) xs.old)
        × (ys.new ≡ over (take (length ys.old) (take result curve.entry.ys.now)) ys.old) }
{
    let first = first_points(curve);
    let ends = first + curve.degree + 1;
    copying::copy_into(&curve.knots[..ends], knots);
    copying::copy_into(&curve.xs[..first], xs);
    copying::copy_into(&curve.ys[..first], ys);
    first
}
