// The path data of a curve with open ends: a copy is clamped into work lists, and written from there.
ghost use Rattle.curve.specs.Lists.{lists};
ghost use Rattle.checked.specs.Along.{lists_of};
ghost use Rattle.svg_out.specs.Svg.{SvgOutcome};
ghost use Rattle.svg_out.specs.Measure.{Longest};

use checked::Curve;
use curve::Lent;
use refusal::Refusal;

// Writes from the parts of the work lists that the copy takes.
fn write_clamped(
    curve: Curve<'_>,
    ts: &mut [u16],
    us: &mut [i32],
    ws: &mut [i32],
    out: &mut [u8],
) -> Result<usize, Refusal>
    requires { Longest (lists ts.old us.old ws.old) }
    ensures answer { SvgOutcome curve.entry.degree (lists_of curve.entry) out.old result out.new }
{
    let into = Lent {
        knots: &mut *ts,
        xs: &mut *us,
        ys: &mut *ws,
    };
    let points = clamp_ends::clamp_checked(curve, into)?;
    let copy = Curve {
        degree: curve.degree,
        knots: &ts[..points + curve.degree + 1],
        xs: &us[..points],
        ys: &ws[..points],
    };
    crate::write_checked(copy, out)
}

// The work lists.
pub(crate) fn write_copy(curve: Curve<'_>, out: &mut [u8]) -> Result<usize, Refusal>
    ensures answer { SvgOutcome curve.entry.degree (lists_of curve.entry) out.old result out.new }
{
    let mut ts = [0u16; grid::KNOTS_MOST];
    let mut us = [0i32; grid::POINTS_MOST];
    let mut ws = [0i32; grid::POINTS_MOST];
    write_clamped(curve, &mut ts, &mut us, &mut ws, out)
}
