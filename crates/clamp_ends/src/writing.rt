// A clamped curve, written to the lent lists: of a curve whose every point carries a span, and whose new points have been judged.
ghost use Rattle.std.specs.Prelude.{◌≡◌, ◌≤◌, ◌<◌, length};
ghost use Rattle.lent.specs.Lent.{over};
ghost use Rattle.insertion.specs.Insertion.{entries};
ghost use Rattle.clamping.specs.Clamping.{clamped_knot, clamped_number, whole_of, clamped_points};

use clamp_rows::{Line, finish_of, number, start_of, value};

// Point j: one of the start, one of the end, or an old one.
fn point_at(line: Line<'_>, j: usize) -> i32
    requires { j < length line.points.now }
    ensures answer { result ≡ whole_of (clamped_number line.entry.degree line.entry.knots.now line.entry.points.now j) }
{
    let m = line.degree;
    let ps = line.points;
    if j + 2 <= m {
        return value(number(start_of(line), m, j));
    }
    let k = ps.len() - 1 - j;
    if k + 2 <= m {
        return value(number(finish_of(line), m, k));
    }
    ps[j]
}

// All points of one axis: the old ones, and over them the first m - 1 and the last m - 1.
pub(crate) fn write_points(line: Line<'_>, out: &mut [i32])
    requires { length line.points.now ≤ length out.old }
    ensures result { out.new ≡ over (clamped_points line.entry.degree line.entry.knots.now line.entry.points.now) out.old }
{
    copying::copy_into(line.points, out);
    let m = line.degree;
    for k in 0..m.saturating_sub(1) {
        out[k] = point_at(line, k);
        let far = line.points.len() + 1 + k - m;
        out[far] = point_at(line, far);
    }
}

// All knots: the old ones, and over them the m first and the m last.
pub(crate) fn write_knots(line: Line<'_>, out: &mut [u16])
    requires { length line.knots.now ≤ length out.old }
    ensures result { out.new ≡ over (entries (clamped_knot line.entry.degree line.entry.knots.now (length line.entry.points.now)) (length line.entry.knots.now)) out.old }
{
    let m = line.degree;
    let count = line.points.len();
    let first = line.knots[m];
    let last = line.knots[count];
    copying::copy_into(line.knots, out);
    for k in 0..m {
        out[k] = first;
        out[count + 1 + k] = last;
    }
}
