// How long the text of numbers is.
ghost use Rattle.std.specs.Prelude.{◌≡◌, ◌≤◌, length};
ghost use Rattle.path_data.specs.Text.{number_text, pair_text};

// A number: its digits, and a minus sign where it is below zero.
pub fn number_length(z: i32) -> usize
    ensures answer { result ≡ length (number_text z) }
    ensures most { result ≤ 11 }
{
    digits::digit_count(z.unsigned_abs()) + usize::from(z < 0)
}

// " x y".
pub fn pair_length(x: i32, y: i32) -> usize
    ensures answer { result ≡ length (pair_text x y) }
    ensures most { result ≤ 24 }
{
    number_length(x) + number_length(y) + 2
}
