// Row 5: the domain is not empty.
ghost use Rattle.std.specs.Prelude.{◌+◌, ◌≤◌, ◌≡◌, length};
ghost use Rattle.grid.specs.Rows.{ends_ok};

// t_m is below t_{n+1}: behind t_{n+1} stand m knots more.
#[tactic(auto, unfolding(crate::specs::Rows::ends_ok))]
pub(crate) fn ends_ok(m: usize, knots: &[u16]) -> bool
    requires { m + 1 ≤ length knots.now }
    ensures answer { result ≡ ends_ok m knots.now }
{
    let end = knots.len() - (m + 1);
    knots[m] < knots[end]
}
