// Bytes and the digits of a number, written from the left into a lent list.
ghost use Rattle.std.specs.Prelude.{◌∷◌, [], ◌≡◌, ◌+◌, ◌≤◌, ◌<◌, length};
ghost use Rattle.digits.specs.Decimal.{decimal};
ghost use Rattle.digits.specs.Put.{Put};

use crate::digit_count;

// A lent list, and the place where the next byte goes.
#[derive(Drop)]
pub struct Pen<'a> {
    pub out: &'a mut [u8],
    pub at: usize,
}

impl<'a> Pen<'a> {
    // Writes one byte.
    pub fn byte(&mut self, byte: u8)
        requires { self.old.at < length self.old.out.now }
        ensures result { Put self.old.out.now self.old.at (byte ∷ []) self.new.out.now self.new.at }
        ensures name { self.new.out.ghost_name ≡ self.old.out.ghost_name }
    {
        self.out[self.at] = byte;
        self.at += 1;
    }

    // Writes some bytes.
    pub fn bytes(&mut self, text: &[u8])
        requires { self.old.at + length text.now ≤ length self.old.out.now }
        ensures result { Put self.old.out.now self.old.at text.now self.new.out.now self.new.at }
        ensures name { self.new.out.ghost_name ≡ self.old.out.ghost_name }
    {
        let end = self.at + text.len();
        self.out[self.at..end].copy_from_slice(text);
        self.at = end;
    }

    // Writes a number's digits, the last one first.
    #[tactic(auto, using(crate::proofs::LastFirstLaws::digits_put))]
    pub fn decimal(&mut self, number: u32)
        requires { self.old.at + length (decimal number) ≤ length self.old.out.now }
        ensures result { Put self.old.out.now self.old.at (decimal number) self.new.out.now self.new.at }
        ensures name { self.new.out.ghost_name ≡ self.old.out.ghost_name }
    {
        let end = self.at + digit_count(number);
        let mut place = end - 1;
        let mut rest = number;
        // A while, since the digits that are left end it; `as` takes a digit, which is below 256.
        while 10 <= rest {
            self.out[place] = (48 + rest % 10) as u8;
            place -= 1;
            rest /= 10;
        }
        self.out[place] = (48 + rest) as u8;
        self.at = end;
    }
}
