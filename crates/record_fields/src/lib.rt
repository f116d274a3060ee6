// Puts the fields of a curve's record into bytes, one behind the other.
#![tactic(auto)]

ghost use Rattle.std.specs.Prelude.{◌≡◌, [], ◌∷◌, ◌+◌, ◌*◌, ◌≤◌, ◌<◌, length};
ghost use Rattle.fields.specs.Bytes.{each, field_bytes};
ghost use Rattle.fields.specs.Places.{put_at};
ghost use Rattle.grid.specs.Limits.{head_bytes};
ghost use Rattle.checked.specs.Along.{lists_of};
ghost use Rattle.format.specs.Format.{degree_tag, form1, record_bytes};
ghost use Rattle.format.specs.RecordPlaces.{knots_field, record_end};

use checked::Curve;
use fields::Entry;

// The degree's field.
fn put_degree(degree: usize, out: &mut [u8])
    requires { (degree < 256) × (knots_field ≤ length out.old) }
    ensures result { out.new ≡ put_at out.old 0 (field_bytes degree_tag (degree ∷ [])) }
{
    fields::put_head(out, 0, format::DEGREE_TAG, 1);
    // `as`: the degree is below 256, and no From leads to a narrower type.
    out[format::DEGREE_PLACE] = degree as u8;
}

// A field of entries, from `at` on.
fn put_list_field<E: Entry>(tag: u8, entries: &[E], out: &mut [u8], at: usize)
    requires { at + head_bytes + E.WIDTH * length entries.now ≤ length out.old }
    ensures result { out.new ≡ put_at out.old at (field_bytes tag (each E.parts entries.now)) }
{
    fields::put_head(out, at, tag, E::WIDTH * entries.len());
    fields::put_entries(entries, out, at + grid::HEAD_BYTES);
}

// The whole record of a curve, at the front.
pub fn put_record(curve: Curve<'_>, out: &mut [u8])
    requires { record_end (2 * length curve.knots.now) (4 * length curve.xs.now) (4 * length curve.ys.now) ≤ length out.old }
    ensures result { out.new ≡ put_at out.old 0 (record_bytes form1 curve.entry.degree (lists_of curve.entry)) }
{
    let on_x = format::BEFORE_KNOTS + 2 * curve.knots.len();
    let on_y = on_x + grid::HEAD_BYTES + 4 * curve.xs.len();
    put_degree(curve.degree, out);
    put_list_field(format::KNOTS_TAG, curve.knots, out, format::KNOTS_FIELD);
    put_list_field(format::X_TAG, curve.xs, out, on_x);
    put_list_field(format::Y_TAG, curve.ys, out, on_y);
}
