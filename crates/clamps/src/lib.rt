// The clamps behind a record: their fields' structure, row 14 for each, and their sides.
#![tactic(auto)]

ghost use Rattle.std.specs.Prelude.{◌≡◌, ◌+◌, ◌*◌, ◌≤◌, length};
ghost use Rattle.lent.specs.Lent.{over};
ghost use Rattle.grid.specs.Rows.{rectangle_ok};
ghost use Rattle.fields.specs.Places.{put_at};
ghost use Rattle.clamps.specs.Clamp.{clamp_sides, clamp_field_bytes, clamp_at, clamps_at, clamps_ok, sides, all_sides};
ghost use Rattle.clamps.specs.Tail.{clamps_behind};

use fields::Entry;
use refusal::Refusal;
use taken_field::{Break, Rule};

// The tag of a clamp's field; the sides of a clamp and the bytes of each; and the bytes of the whole field.
const CLAMP_TAG: u8 = 5;

pub const CLAMP_SIDES: usize = 4;

const SIDE_BYTES: usize = 4;

const CLAMP_FIELD_BYTES: usize = grid::HEAD_BYTES + grid::CLAMP_BYTES;

// What a clamp's field must be.
const CLAMP_RULE: Rule = Rule {
    tag: CLAMP_TAG,
    least: grid::CLAMP_BYTES,
    most: grid::CLAMP_BYTES,
    width: grid::CLAMP_BYTES,
};

// How many clamps' fields stand from `start` to the end of the bytes.
#[tactic(auto, using(crate::proofs::TailLaws::tail_ways))]
pub fn clamps_behind(bytes: &[u8], start: usize) -> Result<usize, Break>
    ensures answer { result ≡ clamps_behind bytes.now start }
{
    let mut at = start;
    let mut count = 0;
    // The bytes' end ends the walk, not a count: a range would need a second test of the end behind it.
    while at < bytes.len() {
        if count == grid::CLAMPS_MOST {
            return Err(Break {
                refusal: Refusal::LeftOver,
                place: at,
            });
        }
        taken_field::take_field(bytes, at, CLAMP_RULE)?;
        at += CLAMP_FIELD_BYTES;
        count += 1;
    }
    Ok(count)
}

// Row 14 for the clamp whose field begins at `at`.
fn clamp_ok(bytes: &[u8], at: usize) -> bool
    requires { at + clamp_field_bytes ≤ length bytes.now }
    ensures answer { result
        ≡ rectangle_ok (clamp_at bytes.now at).low_x (clamp_at bytes.now at).high_x (clamp_at bytes.now at).low_y
        (clamp_at bytes.now at).high_y }
{
    let on_low_x = at + grid::HEAD_BYTES;
    let on_high_x = on_low_x + SIDE_BYTES;
    let on_low_y = on_high_x + SIDE_BYTES;
    let on_high_y = on_low_y + SIDE_BYTES;
    grid::sides_ok(
        i32::get(bytes, on_low_x),
        i32::get(bytes, on_high_x),
        i32::get(bytes, on_low_y),
        i32::get(bytes, on_high_y),
    )
}

// Row 14 for every clamp.
#[tactic(auto, using(crate::proofs::SideLaws::ok_ways))]
pub fn clamps_ok(bytes: &[u8], start: usize, count: usize) -> bool
    requires { start + clamp_field_bytes * count ≤ length bytes.now }
    ensures answer { result ≡ clamps_ok (clamps_at bytes.now start count) }
{
    for i in 0..count {
        if !clamp_ok(bytes, start + CLAMP_FIELD_BYTES * i) {
            return false;
        }
    }
    true
}

// Puts a clamp's four sides into a list of sides from `to` on.
#[tactic(auto, using(crate::proofs::SideLaws::sides_put))]
fn put_sides(bytes: &[u8], at: usize, out: &mut [i32], to: usize)
    requires { (at + clamp_field_bytes ≤ length bytes.now) × (to + clamp_sides ≤ length out.old) }
    ensures result { out.new ≡ put_at out.old to (sides (clamp_at bytes.now at)) }
{
    fields::read_entries(bytes, at + grid::HEAD_BYTES, CLAMP_SIDES, &mut out[to..]);
}

// Reads every clamp's sides into the front of `out`.
pub fn read_clamps(bytes: &[u8], start: usize, count: usize, out: &mut [i32])
    requires { (start + clamp_field_bytes * count ≤ length bytes.now) × (clamp_sides * count ≤ length out.old) }
    ensures result { out.new ≡ over (all_sides (clamps_at bytes.now start count)) out.old }
{
    for i in 0..count {
        put_sides(bytes, start + CLAMP_FIELD_BYTES * i, out, CLAMP_SIDES * i);
    }
}
