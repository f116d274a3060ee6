// Whether every point of a clamped polygon is whole (row 11). All but the first and the last m - 1 are old points.
ghost use Rattle.std.specs.Prelude.{◌&&◌, ◌≡◌, ◌-◌, ◌≤◌, length};
ghost use Rattle.clamping.specs.Clamping.{clamped_number, all_whole};
ghost use Rattle.clamping.specs.EndRows.{end_number};
ghost use Rattle.clamp_rows.specs.Ends.{as_end};

use clamp_rows::{Line, NearEnd, finish_of, is_whole, number, start_of};

// The new points at an end.
fn end_whole(end: NearEnd, m: usize) -> bool
    requires { (2 ≤ m) × (m ≤ 3) }
    ensures answer { result ≡ all_whole (λ k. end_number (as_end end) m k) (m - 1) }
{
    is_whole(number(end, m, 0)) && (m == 2 || is_whole(number(end, m, 1)))
}

// Both ends of one axis.
fn axis_whole(line: Line<'_>) -> bool
    ensures answer { result ≡ all_whole (clamped_number line.entry.degree line.entry.knots.now line.entry.points.now) (length line.entry.points.now) }
{
    let m = line.degree;
    m < 2 || (end_whole(start_of(line), m) && end_whole(finish_of(line), m))
}

// Both axes.
pub(crate) fn both_whole(x: Line<'_>, y: Line<'_>) -> bool
    ensures answer { result ≡ (all_whole (clamped_number x.entry.degree x.entry.knots.now x.entry.points.now) (length x.entry.points.now)
        && all_whole (clamped_number y.entry.degree y.entry.knots.now y.entry.points.now) (length y.entry.points.now)) }
{
    axis_whole(x) && axis_whole(y)
}
