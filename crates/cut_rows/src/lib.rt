// One axis of a span that becomes a piece: a row holds the points that carry the span, and a step makes of it the row with one insertion more.
// The span's low knot stands m times already, so every point that an insertion of its high knot makes is a mean between the two same knots.
#![tactic(auto)]

ghost use Rattle.std.specs.Prelude.{◌≡◌, ◌-◌, ◌≤◌, ◌<◌, pos, nat_abs};
ghost use Rattle.std.specs.Int.Signed.{quot_z};
ghost use Rattle.grid.specs.Limits.{coordinate_most};
ghost use Rattle.signed.specs.Division.{divides};
ghost use Rattle.cut_rows.specs.Row.{mean_sum, sum_at, width_at, RowStands, MeanOf, NextOf, Pushed};

// Whether a quotient has left nothing over. A product takes less time than a second division.
fn is_exact(value: i32, width: u16, sum: i64) -> bool
    requires { (0 < width) × (value ≡ quot_z sum (pos width)) }
    ensures answer { result ≡ divides (pos width) sum }
{
    signed::product(width, value) == sum
}

// The mean of p and q at v, between the knots low and high, where it is whole; of two coordinates on the grid it is no further out than they are.
fn mean_between(low: u16, v: u16, high: u16, p: i32, q: i32) -> Option<i32>
    requires low_lt_v { (low < v) × (v ≤ high) }
    requires p_bound { (nat_abs p ≤ coordinate_most) × (nat_abs q ≤ coordinate_most) }
    ensures answer { MeanOf (mean_sum low v high p q) (pos (high - low)) result }
{
    let width = high - low;
    let sum = insertion_parts::weighted_sum(v - low, q, high - v, p);
    let value = insertion_parts::quotient(sum, width);
    if is_exact(value, width, sum) {
        return Some(value);
    }
    None
}

// The mean that the row's place k becomes, where it is whole. `full` times the high knot v stands; behind the place k the knot is `knots[at + k]`.
fn mean_at(
    row: [i32; 4],
    m: usize,
    knots: &[u16],
    at: usize,
    low: u16,
    v: u16,
    full: usize,
    k: usize,
) -> Option<i32>
    requires { RowStands m knots.now at low v full row × (full < k) × (k ≤ m) }
    ensures answer { MeanOf (sum_at knots.now at low v row k) (width_at knots.now at low k) result }
{
    mean_between(low, v, knots[at + k], row[k - 1], row[k])
}

// The row with one insertion more, where every point that is new in it is whole.
pub fn next_row(
    row: [i32; 4],
    m: usize,
    knots: &[u16],
    at: usize,
    low: u16,
    v: u16,
    full: usize,
) -> Option<[i32; 4]>
    requires { RowStands m knots.now at low v full row }
    ensures answer { NextOf m knots.now at low v full row result }
{
    let last = mean_at(row, m, knots, at, low, v, full, m)?;
    if m == 2 {
        return Some([row[0], row[1], last, row[3]]);
    }
    if full == 2 {
        return Some([row[0], row[1], row[2], last]);
    }
    let third = mean_at(row, m, knots, at, low, v, full, 2)?;
    Some([row[0], row[1], third, last])
}

// The points behind a row, with one more in front of them.
pub fn pushed(point: i32, behind: [i32; 4]) -> [i32; 4]
    ensures answer { Pushed point behind result }
{
    [point, behind[0], behind[1], behind[2]]
}
