// Row 23 in its parts: whether the knots allow it, and whether the points of one axis do.
ghost use Rattle.std.specs.Prelude.{true, ◌&&◌, ◌≡◌, ◌+◌, ◌<◌, pos, length};
ghost use Rattle.std.specs.Int.Signed.{quot_z};
ghost use Rattle.grid.specs.Rows.{all_on_grid};
ghost use Rattle.clamping.specs.EndRows.{finish_of};
ghost use Rattle.unclamping.specs.Unclamping.{end_clamped, open_knot, knots_fit, open_number, opens_on};
ghost use Rattle.unclamp_parts.specs.Standing.{fits};

use checked::Curve;
use unclamp_numbers::RightEnd;

// The last knot afterwards.
fn last_knot(curve: Curve<'_>) -> u32
    ensures answer { result ≡ open_knot curve.entry.knots.now (length curve.entry.xs.now)
        (length curve.entry.xs.now + curve.entry.degree) }
{
    let count = curve.xs.len();
    let width = unclamp_numbers::span_width(curve.knots, count - 1);
    // `as`: the degree is at most 3, and no lossless conversion leads from usize to u32.
    u32::from(curve.knots[count]) + (curve.degree as u32) * u32::from(width)
}

// Whether the last m + 1 knots agree, and the new ones fit.
pub fn knots_open(curve: Curve<'_>) -> bool
    ensures answer { result ≡ (end_clamped curve.entry.degree curve.entry.knots.now (length curve.entry.xs.now)
        && knots_fit curve.entry.degree curve.entry.knots.now (length curve.entry.xs.now)) }
{
    let count = curve.xs.len();
    curve.knots[count + curve.degree] == curve.knots[count]
        && last_knot(curve) <= u32::from(grid::KNOT_MOST)
}

// sum / d, toward zero.
fn wide_quotient(sum: i64, d: u16) -> i64
    requires { 0 < d }
    ensures answer { result ≡ quot_z sum (pos d) }
{
    sum / i64::from(d)
}

// Whether the k-th point from the end is whole and on the grid.
fn point_fits(end: RightEnd<'_>, k: usize) -> bool
    requires { k + 1 < end.degree }
    ensures answer { result ≡ fits (open_number (finish_of end.entry.knots.now end.entry.points.now) end.entry.degree k) }
{
    let sum = unclamp_numbers::above(end, k);
    let d = unclamp_numbers::below(end, k);
    insertion_parts::is_multiple(sum, d) && grid::on_grid_wide(wide_quotient(sum, d))
}

// Whether every point of one axis is whole and on the grid: the last m - 1 decide.
// Inlined: a struct that is handed over in memory would take the stack past what the header tells.
#[inline(always)]
pub fn points_open(end: RightEnd<'_>) -> bool
    requires { all_on_grid end.points.now ≡ true }
    ensures answer { result ≡ opens_on end.entry.degree end.entry.knots.now end.entry.points.now }
{
    // `all` over this range was tried: of a test that asks something of its argument no proof closed.
    for k in 0..end.degree - 1 {
        if !point_fits(end, k) {
            return false;
        }
    }
    true
}
