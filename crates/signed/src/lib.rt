// Products of knots and coordinates, in a width in which sums of them fit. The laws on signed numbers stand in proofs/.
#![tactic(auto)]

ghost use Rattle.std.specs.Prelude.{◌≡◌, pos, ◌*ℤ◌};

// A knot's 16 bits times a coordinate's 32: at most 2^47 either way, so neither the product nor the sum of two wraps.
pub fn product(a: u16, z: i32) -> i64
    ensures answer { result ≡ pos a *ℤ z }
{
    i64::from(a) * i64::from(z)
}
