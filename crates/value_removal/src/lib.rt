// Removing the newest value of a front that grows.
#![tactic(auto)]

ghost use Rattle.std.specs.Prelude.{◌≡◌, ◌<◌, get_or};
ghost use Rattle.value_removal.specs.Work.{newest, Growing, TryOutcome, ValueOutcome};

use refusal::Refusal;

// One try: its window is the last m + 2 points of the front.
fn remove_one_knot(
    m: usize,
    n: usize,
    knots: &mut [u16],
    xs: &mut [i32],
    ys: &mut [i32],
) -> Result<(), Refusal>
    requires growing { Growing m n knots.old xs.old ys.old }
    requires knots_bound { newest n knots.old < get_or knots.old n 0 }
    ensures answer { TryOutcome m n knots.old xs.old ys.old knots.new xs.new ys.new result }
{
    let start = n - m - 2;
    let end = n + m + 1;
    window::remove_middle(
        m,
        &mut knots[start..end],
        &mut xs[start..n],
        &mut ys[start..n],
    )
}

// Removes the newest value while its removal is accepted, as soon as its last knot has come. Answers the number of points that are left. A while, since
// a knot ends it and no count; three lists, since each try lends a part of each: a struct of them would be made anew for every try.
pub fn remove_value(m: usize, n: usize, knots: &mut [u16], xs: &mut [i32], ys: &mut [i32]) -> usize
    requires { Growing m n knots.old xs.old ys.old }
    ensures answer { ValueOutcome m n knots.old xs.old ys.old
        knots.new xs.new ys.new result }
{
    let v = knots[n - 1];
    if knots[n] <= v {
        return n;
    }
    let mut left = n;
    while knots[left - 1] == v {
        match remove_one_knot(m, left, knots, xs, ys) {
            Ok(()) => left -= 1,
            Err(_) => return left,
        }
    }
    left
}
