// What the check says of the curve that stands in bytes. The curve is read into work lists, the shortest that hold it:
// a new list is cleared, and the longest would cost a curve of four points more than all the rest of its reading.
#![tactic(auto)]

ghost use Rattle.std.specs.Prelude.{true, ◌≡◌, ◌≤◌, ◌+◌, ◌/◌, length};
ghost use Rattle.grid.specs.Limits.{points_most};
ghost use Rattle.curve.specs.HandingOver.{enough};
ghost use Rattle.refusal.specs.Answers.{number_in};
ghost use Rattle.stored_check.specs.StoredNumber.{number_in as stored_number, HeldBy, short_points, middle_points};

use layout::Layout;
use refusal::Refusal;
use stored_curve::Stored;

// The points that short and middle lists hold; the longest hold any curve. A curve has at most four knots more than points.
const SHORT: usize = 16;

const SHORT_KNOTS: usize = SHORT + 4;

const MIDDLE: usize = 64;

const MIDDLE_KNOTS: usize = MIDDLE + 4;

const LONGEST: usize = grid::POINTS_MOST;

const LONGEST_KNOTS: usize = LONGEST + 4;

// The check of the curve, read into lists that are long enough for it.
fn check_in(
    stored: Stored<'_>,
    ts: &mut [u16],
    us: &mut [i32],
    ws: &mut [i32],
) -> Result<(), Refusal>
    requires room { enough (stored.layout.knots / 2) (stored.layout.xs / 4) (stored.layout.ys / 4) (length ts.old) (length us.old) (length ws.old) ≡ true }
    ensures answer { number_in result
        ≡ stored_number stored.entry.bytes.now stored.entry.layout.knots stored.entry.layout.xs stored.entry.layout.ys }
{
    stored.read_lists(ts, us, ws);
    let Layout { knots, xs, ys } = stored.layout;
    grid::check(
        stored.degree(),
        &ts[..knots / 2],
        &us[..xs / 4],
        &ws[..ys / 4],
    )
}

// The check through lists for N points and for N + 4 knots, which are K.
fn check_within<const K: usize, const N: usize>(stored: Stored<'_>) -> Result<(), Refusal>
    requires size { (K ≡ N + 4) × (N ≤ points_most) }
    requires held_by { HeldBy N stored.layout.knots stored.layout.xs stored.layout.ys }
    ensures answer { number_in result
        ≡ stored_number stored.entry.bytes.now stored.entry.layout.knots stored.entry.layout.xs stored.entry.layout.ys }
{
    let mut ts = [0u16; K];
    let mut us = [0i32; N];
    let mut ws = [0i32; N];
    check_in(stored, &mut ts, &mut us, &mut ws)
}

// The check through short lists.
fn check_short(stored: Stored<'_>) -> Result<(), Refusal>
    requires held_by { HeldBy short_points stored.layout.knots stored.layout.xs stored.layout.ys }
    ensures answer { number_in result
        ≡ stored_number stored.entry.bytes.now stored.entry.layout.knots stored.entry.layout.xs stored.entry.layout.ys }
{
    check_within::<SHORT_KNOTS, SHORT>(stored)
}

// The check through middle lists.
fn check_middle(stored: Stored<'_>) -> Result<(), Refusal>
    requires held_by { HeldBy middle_points stored.layout.knots stored.layout.xs stored.layout.ys }
    ensures answer { number_in result
        ≡ stored_number stored.entry.bytes.now stored.entry.layout.knots stored.entry.layout.xs stored.entry.layout.ys }
{
    check_within::<MIDDLE_KNOTS, MIDDLE>(stored)
}

// The check of a stored curve: nothing, or the refusal with the lowest of the numbers 1 to 7 that applies.
pub fn curve_number(stored: Stored<'_>) -> Result<(), Refusal>
    ensures answer { number_in result
        ≡ stored_number stored.entry.bytes.now stored.entry.layout.knots stored.entry.layout.xs stored.entry.layout.ys }
{
    let knots = stored.layout.knots / 2;
    let xs = stored.layout.xs / 4;
    let ys = stored.layout.ys / 4;
    if curve::room_for(knots, xs, ys, SHORT_KNOTS, SHORT, SHORT) {
        return check_short(stored);
    }
    if curve::room_for(knots, xs, ys, MIDDLE_KNOTS, MIDDLE, MIDDLE) {
        return check_middle(stored);
    }
    check_within::<LONGEST_KNOTS, LONGEST>(stored)
}
