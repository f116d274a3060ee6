// A list of knots without one of them.
ghost use Rattle.std.specs.Prelude.{◌≡◌, ◌++◌, ◌+◌, ◌<◌, length, take, drop};

// The knots in front of the one at `at` and those behind it, written to `out`.
pub(crate) fn remove_at(knots: &[u16], at: usize, out: &mut [u16])
    requires at_in_bounds { at < length knots.now }
    requires out_len { length out.old + 1 ≡ length knots.now }
    ensures result { out.new ≡ take at knots.now ++ drop (at + 1) knots.now }
{
    copying::copy_into(&knots[..at], out);
    copying::copy_into(&knots[at + 1..], &mut out[at..]);
}
