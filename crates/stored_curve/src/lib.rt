// The curve that stands in bytes with a sound layout: its degree, and its lists handed over into lent ones.
#![tactic(auto)]

ghost use Rattle.std.specs.Prelude.{true, Ok, ◌≡◌, ◌/◌, length};
ghost use Rattle.curve.specs.HandingOver.{enough, room_number, handed_over};
ghost use Rattle.curve.specs.Lists.{lists};
ghost use Rattle.refusal.specs.Answers.{number_in};
ghost use Rattle.refusal.specs.Numbers.{accepted};
ghost use Rattle.layout.specs.Judging.{record_layout};
ghost use Rattle.layout.specs.StoredCurve.{degree_in, curve_in};

use curve::Lent;
use layout::Layout;
use refusal::Refusal;

// Bytes that begin with a record, and the layout that judging found in them.
#[derive(Clone, Copy)]
pub struct Stored<'a> {
    pub bytes: &'a [u8],
    pub layout: Layout,
    pub ghost sound: { record_layout bytes.now ≡ Ok layout },
}

impl<'a> Stored<'a> {
    // The degree.
    pub fn degree(self) -> u32
        ensures answer { result ≡ degree_in self.entry.bytes.now }
    {
        u32::from(self.bytes[format::DEGREE_PLACE])
    }

    // Reads the lists into three that have room for them. No `Lent`: the check goes on with the lists that it lent.
    pub fn read_lists(self, out_knots: &mut [u16], out_xs: &mut [i32], out_ys: &mut [i32])
        requires room { enough (self.layout.knots / 2) (self.layout.xs / 4) (self.layout.ys / 4)
            (length out_knots.old) (length out_xs.old) (length out_ys.old) ≡ true }
        ensures result { lists out_knots.new out_xs.new out_ys.new
            ≡ handed_over accepted
            (curve_in self.entry.bytes.now self.entry.layout.knots self.entry.layout.xs self.entry.layout.ys)
            (lists out_knots.old out_xs.old out_ys.old) }
    {
        let Layout { knots, xs, ys } = self.layout;
        let on_x = format::BEFORE_X + knots;
        let on_y = format::BEFORE_Y + knots + xs;
        fields::read_entries(self.bytes, format::BEFORE_KNOTS, knots / 2, out_knots);
        fields::read_entries(self.bytes, on_x, xs / 4, out_xs);
        fields::read_entries(self.bytes, on_y, ys / 4, out_ys);
    }

    // The lists at the front of the lent ones; or nothing has changed, where one is too short.
    pub fn hand_over(self, into: Lent<'_>) -> Result<(), Refusal>
        ensures answer { number_in result
            ≡ room_number (curve_in self.entry.bytes.now self.entry.layout.knots self.entry.layout.xs self.entry.layout.ys)
            (lists into.entry.knots.now into.entry.xs.now into.entry.ys.now) }
        ensures result { lists into.exit.0.now into.exit.1.0.now into.exit.1.1.0.now
            ≡ handed_over (number_in result)
            (curve_in self.entry.bytes.now self.entry.layout.knots self.entry.layout.xs self.entry.layout.ys)
            (lists into.entry.knots.now into.entry.xs.now into.entry.ys.now) }
    {
        into.room(
            self.layout.knots / 2,
            self.layout.xs / 4,
            self.layout.ys / 4,
        )?;
        let Lent { knots, xs, ys } = into;
        self.read_lists(knots, xs, ys);
        Ok(())
    }
}
