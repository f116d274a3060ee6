// A point from the one before it, where the divisor v - t_j is not zero.
ghost use Rattle.std.specs.Prelude.{◌≡◌, ◌+◌, ◌-◌, ◌<◌, pos, ◌-ℤ◌, ◌*ℤ◌, length};
ghost use Rattle.std.specs.Int.Signed.{quot_z};
ghost use Rattle.insertion.specs.Standing.{Weighed};
ghost use Rattle.removal.specs.Axis.{left_for};
ghost use Rattle.removal_walk.specs.Walk.{is_point};

// whole·p - right·last: at most 2^48 either way, so nothing wraps.
pub(crate) fn weighted_difference(whole: u16, p: i32, right: u16, last: i32) -> i64
    ensures answer { result ≡ pos whole *ℤ p -ℤ pos right *ℤ last }
{
    signed::product(whole, p) - signed::product(right, last)
}

// What is left for P_j, by Q_j and P_{j-1}.
pub(crate) fn left_for(m: usize, ks: &[u16], ps: &[i32], v: u16, j: usize, last: i32) -> i64
    requires { Weighed m ks.now (length ps.now) v j }
    ensures answer { result ≡ left_for m ks.now ps.now v j last }
{
    let high = ks[j + m];
    weighted_difference(high - ks[j], ps[j], high - v, last)
}

// z / d, toward zero.
pub(crate) fn quotient(z: i64, d: u16) -> i64
    requires { 0 < d }
    ensures answer { result ≡ quot_z z (pos d) }
{
    z / i64::from(d)
}

// z / d is a whole number on the grid.
pub(crate) fn is_point(z: i64, d: u16) -> bool
    requires { 0 < d }
    ensures answer { result ≡ is_point d z }
{
    insertion_parts::is_multiple(z, d) && grid::on_grid_wide(quotient(z, d))
}
