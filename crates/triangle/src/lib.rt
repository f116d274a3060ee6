// One cell of the triangle in binary64: the left product, the right product, their sum and the quotient are rounded, in this order.
#![tactic(auto)]

ghost use Rattle.std.specs.Prelude.{◌≡◌, pos, ◌-ℤ◌};
ghost use Rattle.triangle.specs.FloatCell.{float_cell};

// (left·l + right·r) / whole. The three whole differences are exact in binary64.
pub fn cell(left: i32, right: i32, whole: i32, l: f64, r: f64) -> f64
    ensures answer { result ≡ float_cell left right whole l r }
{
    (f64::from(left) * l + f64::from(right) * r) / f64::from(whole)
}

// a - b, below zero where b is the larger.
pub fn difference(a: u16, b: u16) -> i32
    ensures answer { result ≡ pos a -ℤ pos b }
{
    i32::from(a) - i32::from(b)
}
