// The cutter's radius in a job: its field between the record and the clamps.
#![tactic(auto)]

ghost use Rattle.std.specs.Prelude.{◌≡◌, ◌+◌, ◌≤◌, length};
ghost use Rattle.taken_field.specs.Taking.{field_at};
ghost use Rattle.cutter.specs.Radius.{radius_field_bytes};
ghost use Rattle.cutter.specs.Standing.{radius_rule, radius_at};

use fields::Entry;
use taken_field::{Break, Rule};

// The tag of the field, and the bytes of the whole of it.
const RADIUS_TAG: u8 = 6;

pub const RADIUS_FIELD_BYTES: usize = grid::HEAD_BYTES + grid::RADIUS_BYTES;

// What the field must be.
const RADIUS_RULE: Rule = Rule {
    tag: RADIUS_TAG,
    least: grid::RADIUS_BYTES,
    most: grid::RADIUS_BYTES,
    width: grid::RADIUS_BYTES,
};

// Judges the field that begins at `at`.
pub fn take_radius(bytes: &[u8], at: usize) -> Result<usize, Break>
    ensures answer { result ≡ field_at radius_rule bytes.now at }
{
    taken_field::take_field(bytes, at, RADIUS_RULE)
}

// The radius in the field that begins at `at`.
pub fn radius_in(bytes: &[u8], at: usize) -> u32
    requires { at + radius_field_bytes ≤ length bytes.now }
    ensures answer { result ≡ radius_at bytes.now at }
{
    u32::from(u16::get(bytes, at + grid::HEAD_BYTES))
}
