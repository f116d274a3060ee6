// Rows 1 to 3: the degree, the number of points, the number of knots.
ghost use Rattle.std.specs.Prelude.{◌≤◌, ◌≡◌, length};
ghost use Rattle.grid.specs.Limits.{points_most};
ghost use Rattle.grid.specs.Rows.{degree_ok, point_count_ok, knot_count_ok};

#[tactic(auto, unfolding(crate::specs::Rows::degree_ok))]
pub(crate) fn degree_ok(degree: u32) -> bool
    ensures answer { result ≡ degree_ok degree }
{
    (1..=3).contains(&degree)
}

#[tactic(auto, unfolding(crate::specs::Rows::point_count_ok))]
pub(crate) fn point_count_ok(m: usize, xs: &[i32], ys: &[i32]) -> bool
    requires { m ≤ 3 }
    ensures answer { result ≡ point_count_ok m xs.now ys.now }
{
    xs.len() == ys.len() && m + 1 <= xs.len() && xs.len() <= crate::POINTS_MOST
}

#[tactic(auto, unfolding(crate::specs::Rows::knot_count_ok))]
pub(crate) fn knot_count_ok(m: usize, knots: &[u16], xs: &[i32]) -> bool
    requires { (m ≤ 3) × (length xs.now ≤ points_most) }
    ensures answer { result ≡ knot_count_ok m knots.now xs.now }
{
    knots.len() == xs.len() + m + 1
}
