// Lines of text, written by a pen.
#![tactic(auto)]

ghost use Rattle.std.specs.Prelude.{◌≡◌, ◌+◌, ◌≤◌, length};
ghost use Rattle.digits.specs.Put.{Put};
ghost use Rattle.lines.specs.Lines.{labelled, one_number, two_numbers, three_numbers, curve_line, meet_line, clear_line, refused_line, broken_line, meet_lines};

use digits::Pen;

// A word and the number behind it.
#[tactic(auto, using(crate::proofs::RoomLaws::room_for_two))]
fn put_labelled(pen: &mut Pen<'_>, word: &[u8], number: u32)
    requires { pen.old.at + length (labelled word.now number) ≤ length pen.old.out.now }
    ensures result { Put pen.old.out.now pen.old.at (labelled word.now number) pen.new.out.now pen.new.at }
    ensures name { pen.new.out.ghost_name ≡ pen.old.out.ghost_name }
{
    pen.bytes(word);
    pen.decimal(number);
}

// A line of one number: the word before it and what stands behind it.
#[tactic(auto, using(crate::proofs::RoomLaws::room_for_two), unfolding(crate::specs::Lines::one_number))]
fn put_one_number(pen: &mut Pen<'_>, word: &[u8], number: u32, end: &[u8])
    requires { pen.old.at + length (one_number word.now number end.now) ≤ length pen.old.out.now }
    ensures result { Put pen.old.out.now pen.old.at (one_number word.now number end.now) pen.new.out.now pen.new.at }
    ensures name { pen.new.out.ghost_name ≡ pen.old.out.ghost_name }
{
    put_labelled(pen, word, number);
    pen.bytes(end);
}

// A line of two numbers, each behind its word, and what stands behind them.
#[tactic(auto, using(crate::proofs::RoomLaws::room_for_two), unfolding(crate::specs::Lines::two_numbers))]
fn put_two_numbers(pen: &mut Pen<'_>, first: &[u8], a: u32, second: &[u8], b: u32, end: &[u8])
    requires { pen.old.at + length (two_numbers first.now a second.now b end.now) ≤ length pen.old.out.now }
    ensures result { Put pen.old.out.now pen.old.at (two_numbers first.now a second.now b end.now) pen.new.out.now pen.new.at }
    ensures name { pen.new.out.ghost_name ≡ pen.old.out.ghost_name }
{
    put_labelled(pen, first, a);
    put_one_number(pen, second, b, end);
}

// A line of three numbers, each behind its word.
#[tactic(auto, using(crate::proofs::RoomLaws::room_for_four), unfolding(crate::specs::Lines::three_numbers))]
fn put_three_numbers(
    pen: &mut Pen<'_>,
    first: &[u8],
    a: u32,
    second: &[u8],
    b: u32,
    third: &[u8],
    c: u32,
)
    requires { pen.old.at + length (three_numbers first.now a second.now b third.now c) ≤ length pen.old.out.now }
    ensures result { Put pen.old.out.now pen.old.at (three_numbers first.now a second.now b third.now c) pen.new.out.now pen.new.at }
    ensures name { pen.new.out.ghost_name ≡ pen.old.out.ghost_name }
{
    put_labelled(pen, first, a);
    put_labelled(pen, second, b);
    put_labelled(pen, third, c);
    pen.byte(b'\n');
}

// Writes the line on the curve.
pub fn put_curve_line(pen: &mut Pen<'_>, degree: u32, points: u32, spans: u32)
    requires { pen.old.at + length (curve_line degree points spans) ≤ length pen.old.out.now }
    ensures result { Put pen.old.out.now pen.old.at (curve_line degree points spans) pen.new.out.now pen.new.at }
    ensures name { pen.new.out.ghost_name ≡ pen.old.out.ghost_name }
{
    put_three_numbers(
        pen,
        b"curve degree ",
        degree,
        b" points ",
        points,
        b" spans ",
        spans,
    );
}

// Writes the line on a clamp and one span that may meet it.
pub fn put_meet_line(pen: &mut Pen<'_>, clamp: u32, low: u32, high: u32)
    requires { pen.old.at + length (meet_line clamp low high) ≤ length pen.old.out.now }
    ensures result { Put pen.old.out.now pen.old.at (meet_line clamp low high) pen.new.out.now pen.new.at }
    ensures name { pen.new.out.ghost_name ≡ pen.old.out.ghost_name }
{
    put_three_numbers(pen, b"clamp ", clamp, b" may meet ", low, b"..", high);
}

// Writes the line on a clamp that nothing meets.
pub fn put_clear_line(pen: &mut Pen<'_>, clamp: u32)
    requires { pen.old.at + length (clear_line clamp) ≤ length pen.old.out.now }
    ensures result { Put pen.old.out.now pen.old.at (clear_line clamp) pen.new.out.now pen.new.at }
    ensures name { pen.new.out.ghost_name ≡ pen.old.out.ghost_name }
{
    put_one_number(pen, b"clamp ", clamp, b" clear\n");
}

// Writes the line on a refused job.
pub fn put_refused_line(pen: &mut Pen<'_>, number: u32)
    requires { pen.old.at + length (refused_line number) ≤ length pen.old.out.now }
    ensures result { Put pen.old.out.now pen.old.at (refused_line number) pen.new.out.now pen.new.at }
    ensures name { pen.new.out.ghost_name ≡ pen.old.out.ghost_name }
{
    put_one_number(pen, b"refused ", number, b"\n");
}

// Writes the line on bytes that are no job.
pub fn put_broken_line(pen: &mut Pen<'_>, number: u32, place: u32)
    requires { pen.old.at + length (broken_line number place) ≤ length pen.old.out.now }
    ensures result { Put pen.old.out.now pen.old.at (broken_line number place) pen.new.out.now pen.new.at }
    ensures name { pen.new.out.ghost_name ≡ pen.old.out.ghost_name }
{
    put_two_numbers(pen, b"refused ", number, b" at ", place, b"\n");
}

// Writes a line for each listed span: its knots stand at one place of the two lists.
pub fn put_meet_lines(pen: &mut Pen<'_>, clamp: u32, lows: &[u16], highs: &[u16])
    requires highs_len { length highs.now ≡ length lows.now }
    requires highs_in_bounds { pen.old.at + length (meet_lines clamp lows.now highs.now) ≤ length pen.old.out.now }
    ensures result { Put pen.old.out.now pen.old.at (meet_lines clamp lows.now highs.now) pen.new.out.now pen.new.at }
    ensures name { pen.new.out.ghost_name ≡ pen.old.out.ghost_name }
{
    for k in 0..lows.len() {
        put_meet_line(pen, clamp, u32::from(lows[k]), u32::from(highs[k]));
    }
}
