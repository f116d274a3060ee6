// One try to remove a knot, in its window: the m + 2 points and 2m + 3 knots round it.
#![tactic(auto)]

ghost use Rattle.std.specs.Prelude.{◌≡◌, ◌+◌, ◌≤◌, length, take};
ghost use Rattle.window.specs.Window.{closed, Window, WindowOutcome};

use refusal::Refusal;

// The window's knots without the one in the middle, and zeros behind them. Written out for each degree: short loops would take longer.
fn close(m: usize, knots: &[u16]) -> [u16; 8]
    requires le_m { (1 ≤ m) × (m ≤ 3) }
    requires knots_len { length knots.now ≡ m + m + 3 }
    ensures result { take (m + m + 2) result ≡ closed m knots.now }
{
    if m == 1 {
        return [knots[0], knots[1], knots[3], knots[4], 0, 0, 0, 0];
    }
    if m == 2 {
        return [
            knots[0], knots[1], knots[2], knots[4], knots[5], knots[6], 0, 0,
        ];
    }
    [
        knots[0], knots[1], knots[2], knots[3], knots[5], knots[6], knots[7], knots[8],
    ]
}

// One try, one axis after the other, given the fewer knots and lists for the new points. The lists stay apart, since a try is lent a part of each.
fn remove_by_axes(
    m: usize,
    knots: &mut [u16],
    xs: &mut [i32],
    ys: &mut [i32],
    ks: &[u16],
    px: &mut [i32],
    py: &mut [i32],
) -> Result<(), Refusal>
    requires window { Window m knots.old xs.old ys.old }
    requires ks_value { ks.now ≡ closed m knots.old }
    requires px_len { length px.old ≡ m + 1 }
    requires py_len { length py.old ≡ m + 1 }
    ensures answer { WindowOutcome m knots.old xs.old ys.old knots.new xs.new ys.new result }
{
    let v = knots[m + 1];
    removal_walk::remove_axis(m, ks, xs, v, m, px)?;
    removal_walk::remove_axis(m, ks, ys, v, m, py)?;
    copying::copy_into(ks, knots);
    copying::copy_into(px, xs);
    copying::copy_into(py, ys);
    Ok(())
}

// Removes the knot in the middle: the fewer knots and the points that give the old ones back stand at the window's front, or a
// refusal where there are none, and the window is as it was.
pub fn remove_middle(
    m: usize,
    knots: &mut [u16],
    xs: &mut [i32],
    ys: &mut [i32],
) -> Result<(), Refusal>
    requires { Window m knots.old xs.old ys.old }
    ensures answer { WindowOutcome m knots.old xs.old ys.old knots.new xs.new ys.new result }
{
    let ks = close(m, knots);
    let mut px = [0i32; 4];
    let mut py = [0i32; 4];
    let width = m + 1;
    let fewer = m + width + 1;
    remove_by_axes(
        m,
        knots,
        xs,
        ys,
        &ks[..fewer],
        &mut px[..width],
        &mut py[..width],
    )
}
