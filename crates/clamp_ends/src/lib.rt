// Clamping both ends of a curve ("Ends that are not clamped"): the call, for any input.
#![tactic(auto)]

mod carrying;
mod judging;
mod writing;

ghost use Rattle.curve.specs.Lists.{lists};
ghost use Rattle.clamp_ends.specs.Answer.{ClampOutcome};

pub use carrying::clamp_checked;
use checked::Curve;
use curve::Lent;
use refusal::Refusal;

// The clamped curve's knots, x and y go to the three lent lists, and the answer is its number of points. A refusal leaves the lists as they were found.
pub fn clamp_ends(
    degree: u32,
    knots: &[u16],
    xs: &[i32],
    ys: &[i32],
    out_knots: &mut [u16],
    out_xs: &mut [i32],
    out_ys: &mut [i32],
) -> Result<usize, Refusal>
    ensures answer { ClampOutcome degree (lists knots.now xs.now ys.now)
        (lists out_knots.old out_xs.old out_ys.old) result
        (lists out_knots.new out_xs.new out_ys.new) }
{
    let curve = Curve::check(degree, knots, xs, ys)?;
    let into = Lent {
        knots: out_knots,
        xs: out_xs,
        ys: out_ys,
    };
    clamp_checked(curve, into)
}
