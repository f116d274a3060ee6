// The text of numbers, written by a pen.
ghost use Rattle.std.specs.Prelude.{◌≡◌, ◌+◌, ◌≤◌, length};
ghost use Rattle.digits.specs.Put.{Put};
ghost use Rattle.path_data.specs.Text.{number_text, spaced_text, pair_text};

use digits::Pen;

// Writes a number: a minus sign where it is below zero, and its digits.
pub fn put_number(pen: &mut Pen<'_>, z: i32)
    requires { pen.old.at + length (number_text z) ≤ length pen.old.out.now }
    ensures result { Put pen.old.out.now pen.old.at (number_text z) pen.new.out.now pen.new.at }
    ensures name { pen.new.out.ghost_name ≡ pen.old.out.ghost_name }
{
    if z < 0 {
        pen.byte(b'-');
    }
    pen.decimal(z.unsigned_abs());
}

// Writes a space and a number.
fn put_spaced(pen: &mut Pen<'_>, z: i32)
    requires { pen.old.at + length (spaced_text z) ≤ length pen.old.out.now }
    ensures result { Put pen.old.out.now pen.old.at (spaced_text z) pen.new.out.now pen.new.at }
    ensures name { pen.new.out.ghost_name ≡ pen.old.out.ghost_name }
{
    pen.byte(b' ');
    put_number(pen, z);
}

// Writes " x y".
pub fn put_pair(pen: &mut Pen<'_>, x: i32, y: i32)
    requires { pen.old.at + length (pair_text x y) ≤ length pen.old.out.now }
    ensures result { Put pen.old.out.now pen.old.at (pair_text x y) pen.new.out.now pen.new.at }
    ensures name { pen.new.out.ghost_name ≡ pen.old.out.ghost_name }
{
    put_spaced(pen, x);
    put_spaced(pen, y);
}
