// The rows at an end of a curve ("Ends that are not clamped"), worked out in whole numbers. What is read of an end is gathered into one struct,
// inwards from the end of the domain, so that the same functions serve the start and the end, on both axes.
#![tactic(auto)]

mod ends;
mod gathering;

ghost use Rattle.std.specs.Prelude.{◌≡◌, ◌+◌, ◌*◌, ◌≤◌, pos, nat_abs, ◌*ℤ◌};
ghost use Rattle.grid.specs.Limits.{coordinate_most, knot_most};
ghost use Rattle.clamping.specs.Clamping.{is_whole, whole_of};
ghost use Rattle.clamping.specs.EndRows.{mean, end_row, end_number};
ghost use Rattle.clamp_rows.specs.Ends.{as_end};
ghost use Rattle.clamp_rows.specs.Near.{Small, Sized};

use clamping::Share;
pub use ends::NearEnd;
pub use gathering::{Line, finish_of, start_of};

// d·lower·upper: at most 2^60 either way, so neither it nor the sum of two wraps.
fn scaled(d: u64, lower: u64, upper: i64) -> i64
    requires { (d ≤ knot_most) × (lower ≤ knot_most) × (nat_abs upper ≤ coordinate_most * knot_most) }
    ensures answer { result ≡ pos (d * lower) *ℤ upper }
{
    // `as`: the product is below 2^28, and no lossless conversion leads from u64 to i64.
    ((d * lower) as i64) * upper
}

// (d·a + e·b) / (d + e).
fn mean_of(d: u64, a: Share, e: u64, b: Share) -> Share
    requires e_bound { d + e ≤ knot_most }
    requires small { Small a × Small b }
    ensures answer { result ≡ mean d a e b }
{
    Share {
        upper: scaled(d, b.lower, a.upper) + scaled(e, a.lower, b.upper),
        lower: (d + e) * (a.lower * b.lower),
    }
}

// The entry k of the first row.
fn first_row(end: NearEnd, m: usize, k: usize) -> Share
    requires { (k + 2 ≤ m) × (m ≤ 3) }
    ensures answer { result ≡ end_row (as_end end) m 1 k }
{
    let from = Share {
        upper: end.point[k],
        lower: 1,
    };
    let to = Share {
        upper: end.point[k + 1],
        lower: 1,
    };
    mean_of(end.inside[k], from, end.outside[m - k - 2], to)
}

// The k-th point of the clamped end, for a k below m - 1.
pub fn number(end: NearEnd, m: usize, k: usize) -> Share
    requires { (k + 2 ≤ m) × (m ≤ 3) }
    ensures answer { result ≡ end_number (as_end end) m k }
    ensures sized { Sized result }
{
    if k + 2 == m {
        return first_row(end, m, k);
    }
    mean_of(
        end.inside[0],
        first_row(end, 3, 0),
        end.outside[0],
        first_row(end, 3, 1),
    )
}

// Whether a number is whole. That it is `Sized` stays a clause, of `number` above and of the two below: a type for it would hold a `Share` and no more.
pub fn is_whole(a: Share) -> bool
    requires { Sized a }
    ensures answer { result ≡ is_whole a }
{
    // `as`: it is below 2^63.
    a.upper % (a.lower as i64) == 0
}

// A number, toward zero.
pub fn value(a: Share) -> i32
    requires { Sized a }
    ensures answer { result ≡ whole_of a }
{
    // `as`: the quotient lies on the grid.
    (a.upper / (a.lower as i64)) as i32
}
