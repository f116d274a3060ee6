// The numbers of a curve's right end when it is unclamped ("Ends that are not clamped"), on one axis: what stands above and below the line of each of the last
// m - 1 points afterwards. For a curve that has passed the check with a clamped right end.
#![tactic(auto)]

ghost use Rattle.std.specs.Prelude.{◌≡◌, ◌+◌, ◌-◌, ◌≤◌, ◌<◌, ◌^◌, pos, nat_abs, ◌-ℤ◌, ◌*ℤ◌, length, get_or};
ghost use Rattle.curve.specs.Lists.{NeverFall};
ghost use Rattle.clamping.specs.EndRows.{finish_of};
ghost use Rattle.unclamping.specs.Unclamping.{open_number};
ghost use Rattle.unclamp_numbers.specs.Standing.{Ending};

// One axis of a curve that has passed the check and whose right end is clamped.
#[derive(Clone, Copy)]
pub struct RightEnd<'a> {
    pub degree: usize,
    pub knots: &'a [u16],
    pub points: &'a [i32],
    pub ghost ending: { Ending degree knots.now points.now },
}

// The width of span i.
pub fn span_width(knots: &[u16], i: usize) -> u16
    requires never_fall { NeverFall knots.now }
    requires i_in_bounds { i + 1 < length knots.now }
    ensures answer { result ≡ get_or knots.now (i + 1) 0 - get_or knots.now i 0 }
{
    knots[i + 1] - knots[i]
}

// The width of the last two spans.
fn two_spans(end: RightEnd<'_>) -> u16
    ensures answer { result ≡ get_or end.entry.knots.now (length end.entry.points.now) 0
        - get_or end.entry.knots.now (length end.entry.points.now - 2) 0 }
{
    let count = end.points.len();
    span_width(end.knots, count - 2) + span_width(end.knots, count - 1)
}

// Above the line of the last point but one, of degree 3: at most 2^48 either way.
fn second_above(two: u16, last: u16, p: i32, q: i32) -> i64
    requires { two + last < 2 ^ 16 }
    ensures answer { result ≡ pos (two + last) *ℤ p -ℤ pos last *ℤ q }
    ensures size { nat_abs result ≤ 2 ^ 48 }
{
    signed::product(two + last, p) - signed::product(last, q)
}

// Above the line of the last point, of degree 3.
fn first_above(two: u16, p: i32, q: i32, second: i64) -> i64
    requires { nat_abs second ≤ 2 ^ 48 }
    ensures answer { result ≡ pos two *ℤ (pos 6 *ℤ p -ℤ pos 3 *ℤ q) -ℤ pos 2 *ℤ second }
{
    i64::from(two) * (signed::product(6, p) - signed::product(3, q)) - 2 * second
}

// The last point afterwards, of degree 2.
fn twice_less(p: i32, q: i32) -> i64
    ensures answer { result ≡ pos 2 *ℤ p -ℤ q }
{
    signed::product(2, p) - i64::from(q)
}

// Above the line of the last two points, of degree 3.
fn above_of_three(end: RightEnd<'_>, k: usize) -> i64
    requires degree { end.degree ≡ 3 }
    requires k_bound { k + 1 < 3 }
    ensures answer { result ≡ (open_number (finish_of end.entry.knots.now end.entry.points.now) 3 k).upper }
{
    let ps = end.points;
    let count = ps.len();
    let two = two_spans(end);
    let p = ps[count - 2];
    let second = second_above(two, span_width(end.knots, count - 1), p, ps[count - 3]);
    if k == 1 {
        return second;
    }
    first_above(two, ps[count - 1], p, second)
}

// Above the line of the k-th point from the end.
pub fn above(end: RightEnd<'_>, k: usize) -> i64
    requires { k + 1 < end.degree }
    ensures answer { result ≡ (open_number (finish_of end.entry.knots.now end.entry.points.now) end.entry.degree k).upper }
{
    if end.degree == 2 {
        let ps = end.points;
        return twice_less(ps[ps.len() - 1], ps[ps.len() - 2]);
    }
    above_of_three(end, k)
}

// Below it.
pub fn below(end: RightEnd<'_>, k: usize) -> u16
    requires { k + 1 < end.degree }
    ensures answer { result ≡ (open_number (finish_of end.entry.knots.now end.entry.points.now) end.entry.degree k).lower }
    ensures some { 0 < result }
{
    if end.degree == 2 {
        return 1;
    }
    two_spans(end)
}
