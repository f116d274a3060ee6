// What is read of the two ends of an axis on which every point carries a span.
ghost use Rattle.std.specs.Prelude.{◌≡◌, ◌-◌, ◌≤◌, ◌<◌, length, get_or};
ghost use Rattle.curve.specs.Lists.{NeverFall};
ghost use Rattle.clamping.specs.EndRows.{start_of, finish_of};
ghost use Rattle.clamp_rows.specs.Ends.{Gathered};
ghost use Rattle.clamp_rows.specs.Near.{Carries};

use crate::NearEnd;

// How far two knots lie apart.
fn gap(knots: &[u16], low: usize, high: usize) -> u64
    requires never_fall { NeverFall knots.now }
    requires low_le_high { (low ≤ high) × (high < length knots.now) }
    ensures answer { result ≡ get_or knots.now high 0 - get_or knots.now low 0 }
{
    u64::from(knots[high] - knots[low])
}

// One axis of a curve whose every point carries a span.
#[derive(Clone, Copy)]
pub struct Line<'a> {
    pub degree: usize,
    pub knots: &'a [u16],
    pub points: &'a [i32],
    pub ghost carries: { Carries degree knots.now points.now },
}

// Its start.
pub fn start_of(line: Line<'_>) -> NearEnd
    requires { 2 ≤ line.degree }
    ensures gathered { Gathered result (start_of line.entry.degree line.entry.knots.now line.entry.points.now) }
{
    let m = line.degree;
    let knots = line.knots;
    let ps = line.points;
    NearEnd {
        inside: [gap(knots, m, m + 1), gap(knots, m, m + 2)],
        outside: [gap(knots, m - 1, m), gap(knots, m - 2, m)],
        point: [i64::from(ps[0]), i64::from(ps[1]), i64::from(ps[2])],
    }
}

// Its end.
pub fn finish_of(line: Line<'_>) -> NearEnd
    requires { 2 ≤ line.degree }
    ensures gathered { Gathered result (finish_of line.entry.knots.now line.entry.points.now) }
{
    let knots = line.knots;
    let ps = line.points;
    let end = ps.len();
    NearEnd {
        inside: [gap(knots, end - 1, end), gap(knots, end - 2, end)],
        outside: [gap(knots, end, end + 1), gap(knots, end, end + 2)],
        point: [
            i64::from(ps[end - 1]),
            i64::from(ps[end - 2]),
            i64::from(ps[end - 3]),
        ],
    }
}
