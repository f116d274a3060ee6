// The closed box round some control points, an axis at a time, whether it meets a closed rectangle, and a rectangle widened.
#![tactic(auto)]

ghost use Rattle.std.specs.Prelude.{true, ◌≡◌};
ghost use Rattle.std.specs.List.{list_any};
ghost use Rattle.std.specs.Int.Signed.{le_z};
ghost use Rattle.grid.specs.Rows.{rectangle_ok, radius_ok};
ghost use Rattle.boxes.specs.Meeting.{meets_on_axis};
ghost use Rattle.boxes.specs.Widening.{widened};

// A rectangle with closed sides: four, and no two ranges, since the C call takes four and the statements on boxes name each.
#[derive(Clone, Copy, PartialEq, Eq, Debug)]
pub struct Rectangle {
    pub low_x: i32,
    pub high_x: i32,
    pub low_y: i32,
    pub high_y: i32,
}

// Every side moved outward by the radius. On the grid, and by a radius within its limit, no side leaves 32 bits.
pub fn widened(clamp: Rectangle, radius: u32) -> Rectangle
    requires { (rectangle_ok clamp.low_x clamp.high_x clamp.low_y clamp.high_y ≡ true) × (radius_ok radius ≡ true) }
    ensures answer { result ≡ widened radius clamp }
{
    // `as`: the radius is at most 4,096, and no From leads from u32 to i32.
    let by = radius as i32;
    Rectangle {
        low_x: clamp.low_x - by,
        high_x: clamp.high_x + by,
        low_y: clamp.low_y - by,
        high_y: clamp.high_y + by,
    }
}

// Whether some coordinate is at most `high`.
fn some_at_most(zs: &[i32], high: i32) -> bool
    ensures answer { result ≡ list_any (λ z. le_z z high) zs.now }
{
    match zs {
        // A span of degree 3 has four, and all are asked: where they lie far apart, a processor can't foresee at which one a walk would end.
        [a, b, c, d] => (*a <= high) | (*b <= high) | (*c <= high) | (*d <= high),
        _ => zs.iter().any(|z| *z <= high),
    }
}

// Whether some coordinate is at least `low`.
fn some_at_least(zs: &[i32], low: i32) -> bool
    ensures answer { result ≡ list_any (λ z. le_z low z) zs.now }
{
    match zs {
        [a, b, c, d] => (low <= *a) | (low <= *b) | (low <= *c) | (low <= *d),
        _ => zs.iter().any(|z| low <= *z),
    }
}

// Whether the box of the coordinates meets low..high on their axis, a shared side included.
#[tactic(auto, using(crate::proofs::MeetingLaws::meets_any))]
pub fn meets_on_axis(zs: &[i32], low: i32, high: i32) -> bool
    ensures answer { result ≡ meets_on_axis low high zs.now }
{
    some_at_most(zs, high) && some_at_least(zs, low)
}
