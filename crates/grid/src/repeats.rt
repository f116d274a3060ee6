// Row 6: no value stands too often.
ghost use Rattle.std.specs.Prelude.{◌+◌, ◌*◌, ◌≤◌, true, ◌≡◌, length};
ghost use Rattle.grid.specs.Again.{ToldOfAgain};
ghost use Rattle.grid.specs.Rows.{knot_order_ok, ends_ok, repeats_ok};

// No knot from `first` on and before `past` equals the one `back` places before it. Looks at every one of them, whatever it has seen, as range.rt does.
fn none_again(knots: &[u16], first: usize, past: usize, back: usize) -> bool
    requires { (back ≤ first) × (past ≤ length knots.now) }
    ensures answer { ToldOfAgain knots.now first past back result }
{
    let mut fine = true;
    for k in first..past {
        fine &= knots[k] != knots[k - back];
    }
    fine
}

// In knots that never fall a value stands more than k times where a knot equals the k-th before it. Strictly inside the domain m times are allowed, and
// between t_{m+1} and t_n no value may do more: an end value that reaches in so far stands m+2 times. Round either end m+1 times are allowed.
pub(crate) fn repeats_ok(m: usize, knots: &[u16]) -> bool
    requires count { 2 * m + 2 ≤ length knots.now }
    requires order { knot_order_ok knots.now ≡ true }
    requires ends { ends_ok m knots.now ≡ true }
    ensures answer { result ≡ repeats_ok m knots.now }
{
    let more = m + 1;
    let inner = m + more;
    let end = knots.len() - more;
    none_again(knots, more, inner, more)
        && none_again(knots, end + 1, knots.len(), more)
        && none_again(knots, inner, end, m)
}
