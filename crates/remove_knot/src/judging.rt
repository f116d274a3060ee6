// Row 12 of a removal: what stands inside the domain as a knot.
ghost use Rattle.std.specs.Prelude.{◌≡◌};
ghost use Rattle.removal.specs.Judged.{inner_ok};

use checked::Curve;

// Whether v is an inner knot of the curve.
pub(crate) fn inner_ok(curve: Curve<'_>, v: u32) -> bool
    ensures answer { result ≡ inner_ok curve.entry.degree curve.entry.knots.now curve.entry.xs.now v }
{
    if !span::strictly_inside(curve.knots, curve.degree, curve.xs.len(), v) {
        return false;
    }
    // `as`: v lies between two knots, and no From leads to a narrower type.
    let value = v as u16;
    insertion_parts::stands(
        1,
        curve.knots,
        value,
        insertion_parts::knots_up_to(curve.knots, value),
    )
}
