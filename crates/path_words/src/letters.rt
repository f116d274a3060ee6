// The letter of a degree.
ghost use Rattle.std.specs.Prelude.{◌∷◌, [], ◌≡◌, ◌+◌, ◌≤◌, length};
ghost use Rattle.digits.specs.Letters.{space};
ghost use Rattle.digits.specs.Put.{Put};
ghost use Rattle.path_data.specs.Text.{letter_of};

use digits::Pen;

// A line, a quadratic or a cubic.
fn letter(m: usize) -> u8
    ensures answer { result ≡ letter_of m }
{
    match m {
        1 => b'L',
        2 => b'Q',
        _ => b'C',
    }
}

// Writes a space and the letter.
pub fn put_letter(pen: &mut Pen<'_>, m: usize)
    requires { pen.old.at + 2 ≤ length pen.old.out.now }
    ensures result { Put pen.old.out.now pen.old.at (space ∷ letter_of m ∷ []) pen.new.out.now pen.new.at }
    ensures name { pen.new.out.ghost_name ≡ pen.old.out.ghost_name }
{
    pen.byte(b' ');
    pen.byte(letter(m));
}
