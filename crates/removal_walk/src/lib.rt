// Removing a knot ("Inserting and removing a knot") on one axis, on slices, for a curve that has passed the check.
#![tactic(auto)]

mod forward;
mod walk;

ghost use Rattle.std.specs.Prelude.{◌≡◌, ◌+◌, ◌-◌, length};
ghost use Rattle.insertion.specs.Insertion.{insertion_span};
ghost use Rattle.removal.specs.Axis.{Reduced, Ranged};
ghost use Rattle.removal_walk.specs.Walk.{AxisOutcome};

use refusal::Refusal;

// One axis: the coordinates that give `ps` back when v is inserted, or a refusal where there are none.
#[tactic(auto, using(crate::proofs::SpanRules::span_inside))]
pub fn remove_axis(
    m: usize,
    ks: &[u16],
    ps: &[i32],
    v: u16,
    i: usize,
    out: &mut [i32],
) -> Result<(), Refusal>
    requires reduced { Reduced m ks.now (length ps.now - 1) v }
    requires i_value { i ≡ insertion_span ks.now v }
    requires out_len { length out.old + 1 ≡ length ps.now }
    requires ranged { Ranged ps.now }
    ensures answer { AxisOutcome m ks.now v ps.now out.new result }
{
    let far = walk::far_end(m, ks, v, i);
    walk::from_left(m, ks, ps, v, i, far, out)?;
    if !walk::agrees(m, ks, ps, v, far, out[far - 1]) {
        return Err(Refusal::NotRemovable);
    }
    walk::copy_sides(ps, i - m, far, out);
    Ok(())
}
