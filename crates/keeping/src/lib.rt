// A burst kept in a work list behind the bytes received so far, and counted.
#![tactic(auto)]

ghost use Rattle.std.specs.Prelude.{◌≡◌};
ghost use Rattle.lent.specs.Lent.{over};
ghost use Rattle.keeping.specs.Kept.{kept_with, received_with};

// Keeps the burst behind the bytes received, as far as it fits, and counts it.
#[tactic(auto, using(crate::proofs::KeptLaws::kept_and_counted))]
pub fn keep(received: usize, burst: &[u8], work: &mut [u8]) -> usize
    ensures count { result ≡ received_with received burst.now work.old }
    ensures result { work.new ≡ over (kept_with received burst.now work.old) work.old }
{
    let places = work.len();
    if received > places {
        return received;
    }
    copying::copy_into(burst, &mut work[received..]);
    if burst.len() > places - received {
        return places + 1;
    }
    received + burst.len()
}
