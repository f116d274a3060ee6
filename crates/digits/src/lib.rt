// The digits of a number, and a pen that writes them and other bytes into a lent list.
#![tactic(auto)]

mod pen;

ghost use Rattle.std.specs.Prelude.{◌≡◌, ◌≤◌, length};
ghost use Rattle.digits.specs.Decimal.{decimal};

pub use pen::Pen;

// How many digits a number has; three at a time, since a division takes long.
#[tactic(auto, using(crate::proofs::DecimalLaws::digits_counted))]
pub fn digit_count(number: u32) -> usize
    ensures answer { result ≡ length (decimal number) }
    ensures most { result ≤ 10 }
{
    let mut rest = number;
    let mut count = 1;
    // A while, since the digits that are left end it.
    while 1000 <= rest {
        rest /= 1000;
        count += 3;
    }
    if 100 <= rest {
        return count + 2;
    }
    if 10 <= rest {
        return count + 1;
    }
    count
}
