// A curve as path data of SVG ("Out to SVG"): the call, for any input. A curve with open ends is clamped into work lists first; one with clamped ends is its own
// clamped copy, and is written from the lists themselves. The pieces are walked twice, to measure the text and to write it, so that a refusal leaves the lent list
// as it was found.
#![tactic(auto)]

mod measuring;
mod open_ends;
mod writing;

ghost use Rattle.std.specs.Prelude.{true, ◌≡◌, length};
ghost use Rattle.curve.specs.Lists.{lists};
ghost use Rattle.checked.specs.Along.{lists_of};
ghost use Rattle.checked.specs.Checked.{Clamped};
ghost use Rattle.svg_out.specs.Svg.{SvgOutcome};
ghost use Rattle.svg_out.specs.Measure.{PiecesOutcome};

use checked::Curve;
use refusal::Refusal;

// The path data of a curve with clamped ends.
fn write_checked(curve: Curve<'_>, out: &mut [u8]) -> Result<usize, Refusal>
    requires { Clamped curve.degree curve.knots.now (length curve.xs.now) }
    ensures answer { PiecesOutcome curve.entry.degree (lists_of curve.entry) out.old result out.new }
{
    let length = measuring::measure(curve)?;
    if out.len() < length {
        return Err(Refusal::Room);
    }
    writing::put_path(curve, out);
    Ok(length)
}

// Whether both ends are clamped. Knots never fall, so it is enough that the outermost knot of an end is the domain's.
fn ends_clamped(curve: Curve<'_>) -> bool
    ensures answer { result ≡ true → Clamped curve.entry.degree curve.entry.knots.now (length curve.entry.xs.now) }
{
    let knots = curve.knots;
    let m = curve.degree;
    let count = curve.xs.len();
    if knots[0] < knots[m] {
        return false;
    }
    knots[count + m] <= knots[count]
}

// Writes path data to the front of the lent list, and answers how many bytes. A refusal leaves the list as it was found.
pub fn write_svg(
    degree: u32,
    knots: &[u16],
    xs: &[i32],
    ys: &[i32],
    out: &mut [u8],
) -> Result<usize, Refusal>
    ensures answer { SvgOutcome degree (lists knots.now xs.now ys.now) out.old result out.new }
{
    let curve = Curve::check(degree, knots, xs, ys)?;
    if ends_clamped(curve) {
        return write_checked(curve, out);
    }
    open_ends::write_copy(curve, out)
}
