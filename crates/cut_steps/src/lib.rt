// The insertions that make a span a piece: its high knot goes in until it stands m times, on both axes, unless an insertion is refused.
#![tactic(auto)]

ghost use Rattle.std.specs.Prelude.{◌≡◌, List, ℕ, ◌+◌, ◌≤◌, ◌<◌, ℤ};
ghost use Rattle.curve.specs.Lists.{Lists, lists};
ghost use Rattle.cut_rows.specs.Row.{RowStands};
ghost use Rattle.cut_steps.specs.Step.{AxisOutcome, CutStands, Possible, Steps, Fills};

use refusal::Refusal;

// One axis: the row of points that carry the span, and the points behind them.
#[derive(Clone, Copy, PartialEq, Eq, Debug)]
pub struct Axis {
    pub row: [i32; 4],
    pub behind: [i32; 4],
}

// A span on its way: the points of the whole curve so far, and both axes.
#[derive(Clone, Copy, PartialEq, Eq, Debug)]
pub struct Cut {
    pub points: usize,
    pub x: Axis,
    pub y: Axis,
}

// One axis with one insertion more, where every new point is whole: `full` times the high knot v stands already.
fn step_axis(
    axis: Axis,
    m: usize,
    knots: &[u16],
    at: usize,
    low: u16,
    v: u16,
    full: usize,
) -> Option<Axis>
    requires { RowStands m knots.now at low v full axis.row }
    ensures answer { AxisOutcome m knots.now at low v full axis result }
{
    let row = cut_rows::next_row(axis.row, m, knots, at, low, v, full)?;
    Some(Axis {
        row,
        behind: cut_rows::pushed(axis.row[m], axis.behind),
    })
}

// The high knot of the span i inserted once more, where it stood s times and was inserted r times. It is refused where the curve is full, and where a new point
// is not whole.
fn insert_once(
    cut: Cut,
    m: usize,
    knots: &[u16],
    i: usize,
    s: usize,
    r: usize,
) -> Result<Cut, Refusal>
    requires { Possible m knots.now i s r cut × (s + r < m) }
    ensures answer { (cx cy : List ℤ) (d : Lists) (k : ℕ) → CutStands m (lists knots.now cx cy) d i k s r cut
        → Steps m (lists knots.now cx cy) d i k s r result }
{
    if grid::POINTS_MOST <= cut.points {
        return Err(Refusal::Full);
    }
    let at = i - r;
    let low = knots[i];
    let v = knots[i + 1];
    let full = s + r;
    let Some(x) = step_axis(cut.x, m, knots, at, low, v, full) else {
        return Err(Refusal::NotWhole);
    };
    let Some(y) = step_axis(cut.y, m, knots, at, low, v, full) else {
        return Err(Refusal::NotWhole);
    };
    Ok(Cut {
        points: cut.points + 1,
        x,
        y,
    })
}

// The high knot inserted until it stands m times, unless an insertion is refused. As it stood s times, and m is at most 3, it takes no more than two.
pub fn insert_rest(cut: Cut, m: usize, knots: &[u16], i: usize, s: usize) -> Result<Cut, Refusal>
    requires { Possible m knots.now i s 0 cut × (s ≤ m) }
    ensures answer { (cx cy : List ℤ) (d : Lists) (k : ℕ) → CutStands m (lists knots.now cx cy) d i k s 0 cut
        → Fills m (lists knots.now cx cy) d i k s result }
{
    if s == m {
        return Ok(cut);
    }
    let once = insert_once(cut, m, knots, i, s, 0)?;
    if s + 1 == m {
        return Ok(once);
    }
    insert_once(once, m, knots, i, s, 1)
}
