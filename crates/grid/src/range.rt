// Rows 7, 14 and 22: coordinates and sides on the grid, and a radius within its limit.
ghost use Rattle.std.specs.Prelude.{◌≡◌};
ghost use Rattle.grid.specs.Rows.{on_grid, all_on_grid, range_ok, axis_ok, rectangle_ok, radius_ok};

// z is on the grid.
#[tactic(auto, unfolding(crate::specs::Rows::on_grid))]
pub fn on_grid(z: i32) -> bool
    ensures answer { result ≡ on_grid z }
{
    (-crate::COORDINATE_MOST..=crate::COORDINATE_MOST).contains(&z)
}

// The same for a number that may be too wide for a coordinate. Not the other way round: over i64 the check of a curve takes more than twice the time.
#[tactic(auto, unfolding(crate::specs::Rows::on_grid))]
pub fn on_grid_wide(z: i64) -> bool
    ensures answer { result ≡ on_grid z }
{
    i32::try_from(z).is_ok_and(on_grid)
}

// On one axis the low side does not lie above the high side, and both are on the grid.
#[tactic(auto, unfolding(crate::specs::Rows::axis_ok))]
fn axis_ok(low: i32, high: i32) -> bool
    ensures answer { result ≡ axis_ok low high }
{
    low <= high && on_grid(low) && on_grid(high)
}

// A rectangle's sides, x first.
#[tactic(auto, unfolding(crate::specs::Rows::rectangle_ok))]
pub fn sides_ok(low_x: i32, high_x: i32, low_y: i32, high_y: i32) -> bool
    ensures answer { result ≡ rectangle_ok low_x high_x low_y high_y }
{
    axis_ok(low_x, high_x) && axis_ok(low_y, high_y)
}

// A cutter's radius, in steps.
#[tactic(auto, unfolding(crate::specs::Rows::radius_ok))]
pub fn radius_ok(radius: u32) -> bool
    ensures answer { result ≡ radius_ok radius }
{
    radius <= crate::RADIUS_MOST
}

// Every entry of both lists is on the grid.
#[tactic(auto, unfolding(crate::specs::Rows::range_ok))]
pub fn range_ok(xs: &[i32], ys: &[i32]) -> bool
    ensures answer { result ≡ range_ok xs.now ys.now }
{
    all_on_grid(xs) && all_on_grid(ys)
}

// Looks at every entry, whatever it has seen: a loop with one way out is turned into code for several entries at once.
#[tactic(auto, unfolding(crate::specs::Rows::all_on_grid))]
fn all_on_grid(zs: &[i32]) -> bool
    ensures answer { result ≡ all_on_grid zs.now }
{
    let mut fine = true;
    for z in zs {
        fine &= on_grid(*z);
    }
    fine
}
