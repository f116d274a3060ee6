// Copying a lent list over another: as many entries as both have room for, the rest as before.
#![tactic(auto)]

ghost use Rattle.std.specs.Prelude.{◌≡◌, length, take};
ghost use Rattle.lent.specs.Lent.{over};

// The entries of one list over those of another.
#[tactic(auto, using(crate::proofs::CopyLaws::copied_none))]
pub fn copy_into<T: Copy>(from: &[T], to: &mut [T])
    ensures result { to.new ≡ over (take (length to.old) from.now) to.old }
{
    let count = from.len().min(to.len());
    // Entry by entry: the library's copy would be a call of a C library's function, which does not pay for a few entries.
    for i in 0..count {
        to[i] = from[i];
    }
}
