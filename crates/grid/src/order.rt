// Row 4: no knot above the largest, none below the one before it.
ghost use Rattle.std.specs.Prelude.{◌≤◌, ◌≡◌, length};
ghost use Rattle.grid.specs.Rows.{knot_order_ok};

// Looks at every knot, whatever it has seen, as range.rt does. Where no knot falls the last is the largest.
pub(crate) fn knot_order_ok(knots: &[u16]) -> bool
    requires { 1 ≤ length knots.now }
    ensures answer { result ≡ knot_order_ok knots.now }
{
    let mut fine = true;
    // By the index: pairs by zip take a tenth more time.
    for k in 1..knots.len() {
        fine &= knots[k - 1] <= knots[k];
    }
    fine && knots[knots.len() - 1] <= crate::KNOT_MOST
}
