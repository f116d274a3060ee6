// Three lent lists that receive a curve: all of its knots, x and y where there is room for all, or none.
#![tactic(auto)]

ghost use Rattle.std.specs.Prelude.{◌≡◌, length};
ghost use Rattle.curve.specs.HandingOver.{enough, room_number, handed_over};
ghost use Rattle.curve.specs.Lists.{lists};
ghost use Rattle.refusal.specs.Answers.{number_in, required};
ghost use Rattle.refusal.specs.declared.Refusal.TheVariants.{Room};

use refusal::Refusal;

// Whether lists with so many places hold so many knots, x and y.
#[tactic(auto, unfolding(crate::specs::HandingOver::enough))]
pub fn room_for(
    knots: usize,
    xs: usize,
    ys: usize,
    knot_places: usize,
    x_places: usize,
    y_places: usize,
) -> bool
    ensures answer { result ≡ enough knots xs ys knot_places x_places y_places }
{
    knots <= knot_places && xs <= x_places && ys <= y_places
}

// The lists that a caller lends for a curve's knots, x and y.
#[derive(Drop)]
pub struct Lent<'a> {
    pub knots: &'a mut [u16],
    pub xs: &'a mut [i32],
    pub ys: &'a mut [i32],
}

impl<'a> Lent<'a> {
    // Row 15: whether there is room for so many knots, x and y.
    pub fn room(&self, knots: usize, xs: usize, ys: usize) -> Result<(), Refusal>
        ensures answer { result ≡ required (enough knots xs ys
            (length self.now.knots.now) (length self.now.xs.now) (length self.now.ys.now)) Room }
    {
        let fine = room_for(
            knots,
            xs,
            ys,
            self.knots.len(),
            self.xs.len(),
            self.ys.len(),
        );
        refusal::require(fine, Refusal::Room)
    }

    // A curve's lists at the front of the lent ones; or nothing has changed, where one is too short.
    pub fn receive(self, knots: &[u16], xs: &[i32], ys: &[i32]) -> Result<(), Refusal>
        ensures answer { number_in result ≡ room_number (lists knots.now xs.now ys.now)
            (lists self.entry.knots.now self.entry.xs.now self.entry.ys.now) }
        ensures result { lists self.exit.0.now self.exit.1.0.now self.exit.1.1.0.now
            ≡ handed_over (number_in result) (lists knots.now xs.now ys.now)
            (lists self.entry.knots.now self.entry.xs.now self.entry.ys.now) }
    {
        self.room(knots.len(), xs.len(), ys.len())?;
        copying::copy_into(knots, self.knots);
        copying::copy_into(xs, self.xs);
        copying::copy_into(ys, self.ys);
        Ok(())
    }
}
