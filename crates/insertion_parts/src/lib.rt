// The parts of inserting a knot ("Inserting and removing a knot"), on slices, for a curve that has passed the check.
#![tactic(auto)]

ghost use Rattle.std.specs.List.{position};
ghost use Rattle.std.specs.Prelude.{nat_lt, true, ◌≡◌, ◌+◌, ◌≤◌, ◌<◌, ◌^◌, leb, pos, nat_abs, ◌+ℤ◌, ◌*ℤ◌, length, get_or};
ghost use Rattle.std.specs.Int.Signed.{quot_z};
ghost use Rattle.grid.specs.Rows.{knot_order_ok, occurrences};
ghost use Rattle.lent.specs.Lent.{over};
ghost use Rattle.signed.specs.Division.{divides};
ghost use Rattle.insertion.specs.Insertion.{knots_up_to, insertion_span, inserted_knots, inserted_points, weighted_sum, weight, whole_points};
ghost use Rattle.insertion.specs.Standing.{Weighed, Insertable};

// left·p + right·q: at most 2^48 either way, so nothing wraps.
pub fn weighted_sum(left: u16, p: i32, right: u16, q: i32) -> i64
    ensures answer { result ≡ pos left *ℤ p +ℤ pos right *ℤ q }
{
    signed::product(left, p) + signed::product(right, q)
}

// Whether d goes into sum with no remainder.
pub fn is_multiple(sum: i64, d: u16) -> bool
    requires { 0 < d }
    ensures answer { result ≡ divides (pos d) sum }
{
    sum % i64::from(d) == 0
}

// sum / d, toward zero.
pub fn quotient(sum: i64, d: u16) -> i32
    requires d_nonzero { 0 < d }
    requires d_bound { nat_abs (quot_z sum (pos d)) < 2 ^ 31 }
    ensures answer { result ≡ quot_z sum (pos d) }
{
    // `as`: the quotient has 32 bits, and no From leads to a narrower type.
    (sum / i64::from(d)) as i32
}

// The place of the first knot above v.
fn first_above(knots: &[u16], v: u16) -> Option<usize>
    ensures answer { result ≡ position (λ t. nat_lt v t) knots.now }
{
    knots.iter().position(|knot| v < *knot)
}

// The number of knots before the first one above v.
// Not inlined: its loop would cost the export stack while all lists are at hand.
#[inline(never)]
pub fn knots_up_to(knots: &[u16], v: u16) -> usize
    ensures answer { result ≡ knots_up_to v knots.now }
{
    first_above(knots, v).unwrap_or(knots.len())
}

// Whether v stands so many times or more, where `at` knots are up to v. The knots never fall, so that one knot tells.
pub fn stands(times: usize, knots: &[u16], v: u16, at: usize) -> bool
    requires knots_value { knot_order_ok knots.now ≡ true }
    requires at_value { at ≡ knots_up_to v knots.now }
    requires le_times { 1 ≤ times }
    requires times_le_at { times ≤ at }
    ensures answer { result ≡ leb times (occurrences v knots.now) }
{
    knots[at - times] == v
}

// What stands above the line of Q_j.
pub fn weighted_sum_at(m: usize, knots: &[u16], ps: &[i32], v: u16, j: usize) -> i64
    requires { Weighed m knots.now (length ps.now) v j }
    ensures answer { result ≡ weighted_sum m knots.now ps.now v j }
{
    let low = knots[j];
    let high = knots[j + m];
    weighted_sum(v - low, ps[j], high - v, ps[j - 1])
}

// What stands below the line of Q_j.
pub fn weight_at(m: usize, knots: &[u16], j: usize) -> u16
    requires m_in_bounds { j + m < length knots.now }
    requires j_bound { get_or knots.now j 0 < get_or knots.now (j + m) 0 }
    ensures answer { pos result ≡ weight m knots.now j }
    ensures above { 0 < result }
{
    knots[j + m] - knots[j]
}

// Whether Q_j is whole, for a j from i-m+1 to i.
pub fn is_whole_at(m: usize, knots: &[u16], ps: &[i32], v: u16, j: usize) -> bool
    requires { Weighed m knots.now (length ps.now) v j }
    ensures answer { result ≡ divides (weight m knots.now j) (weighted_sum m knots.now ps.now v j) }
{
    is_multiple(weighted_sum_at(m, knots, ps, v, j), weight_at(m, knots, j))
}

// Q_j, for a j from i-m+1 to i.
pub fn quotient_at(m: usize, knots: &[u16], ps: &[i32], v: u16, j: usize) -> i32
    requires insertable { Insertable m knots.now ps.now v }
    requires weighed { Weighed m knots.now (length ps.now) v j }
    ensures answer { result ≡ quot_z (weighted_sum m knots.now ps.now v j) (weight m knots.now j) }
{
    quotient(weighted_sum_at(m, knots, ps, v, j), weight_at(m, knots, j))
}

// The knots with v among them, behind the first `at` of them, written to `out`.
// Not inlined: its loop would cost the export stack while all lists are at hand.
#[inline(never)]
pub fn insert_value(knots: &[u16], v: u16, at: usize, out: &mut [u16])
    requires at_value { at ≡ knots_up_to v knots.now }
    requires knots_in_bounds { length knots.now + 1 ≤ length out.old }
    ensures result { out.new ≡ over (inserted_knots knots.now v) out.old }
{
    copying::copy_into(&knots[..at], out);
    out[at] = v;
    copying::copy_into(&knots[at..], &mut out[at + 1..]);
}

// One axis of a curve, and a value that can be inserted in a span of it.
#[derive(Clone, Copy)]
pub struct Inserting<'a> {
    pub degree: usize,
    pub knots: &'a [u16],
    pub ps: &'a [i32],
    pub v: u16,
    pub span: usize,
    pub ghost insertable: { Insertable degree knots.now ps.now v },
    pub ghost place: { span ≡ insertion_span knots.now v },
}

impl Inserting<'_> {
    // Whether every Q is whole.
    pub fn whole_points(self) -> bool
        ensures answer { result ≡ whole_points self.entry.degree self.entry.knots.now self.entry.ps.now self.entry.v }
    {
        for j in self.span + 1 - self.degree..self.span + 1 {
            if !is_whole_at(self.degree, self.knots, self.ps, self.v, j) {
                return false;
            }
        }
        true
    }

    // All of Q, written to `out`: the points in front of the quotients, the quotients, and the points behind them.
    // Inlined: a struct that is handed over in memory would take the stack past what the header tells.
    #[inline(always)]
    pub fn insert_points(self, out: &mut [i32])
        requires { length self.ps.now + 1 ≤ length out.old }
        ensures result { out.new ≡ over (inserted_points self.entry.degree self.entry.knots.now self.entry.ps.now self.entry.v) out.old }
    {
        let ps = self.ps;
        let front = self.span + 1 - self.degree;
        copying::copy_into(&ps[..front], out);
        let behind = self.span + 1;
        for j in front..behind {
            out[j] = quotient_at(self.degree, self.knots, self.ps, self.v, j);
        }
        copying::copy_into(&ps[behind - 1..], &mut out[behind..]);
    }
}
