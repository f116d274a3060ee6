// The line on a curve.
ghost use Rattle.std.specs.Prelude.{◌≡◌, ◌+◌, ◌≤◌, length};
ghost use Rattle.checked.specs.Along.{lists_of};
ghost use Rattle.digits.specs.Put.{Put};
ghost use Rattle.clamp_lines.specs.Places.{text_most};
ghost use Rattle.report.specs.Part.{curve_text};

use checked::Curve;
use digits::Pen;

// Degree, points and spans of a curve that has passed the check.
pub(crate) fn put_curve(pen: &mut Pen<'_>, curve: Curve<'_>)
    requires { pen.old.at + text_most ≤ length pen.old.out.now }
    ensures result { Put pen.old.out.now pen.old.at (curve_text curve.entry.degree (lists_of curve.entry))
        pen.new.out.now pen.new.at }
    ensures name { pen.new.out.ghost_name ≡ pen.old.out.ghost_name }
{
    let spans = span_walk::count_spans(curve.knots, curve.degree, curve.xs.len());
    // `as`: a curve has at most 1,024 points, and no From leads from usize to u32.
    lines::put_curve_line(
        pen,
        curve.degree as u32,
        curve.xs.len() as u32,
        spans as u32,
    );
}
