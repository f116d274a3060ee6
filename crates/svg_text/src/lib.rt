// The text of `curvesvg` ("Out to SVG"): a record's path data and a newline, or the line on its refusal.
#![tactic(auto)]

ghost use Rattle.std.specs.Prelude.{◌+◌, ◌≤◌, ◌<◌, length};
ghost use Rattle.refusal.specs.Answers.{number_of};
ghost use Rattle.curve.specs.Lists.{lists};
ghost use Rattle.grid.specs.Limits.{record_most, svg_most};
ghost use Rattle.digits.specs.Put.{Put};
ghost use Rattle.lines.specs.Lines.{line_end, refused_line, broken_line};
ghost use Rattle.round_trip.specs.RoundTrip.{front_of};
ghost use Rattle.svg_text.specs.Text.{drawn_text};
ghost use Rattle.svg_text.specs.Program.{Places, TextInFront};

use digits::Pen;
use record::StoredCurve;
use refusal::Refusal;
use taken_field::{Break, Failure};

pub const TEXT_MOST: usize = grid::SVG_MOST + 1;

// The line on a refusal.
fn put_refusal(refusal: Refusal, text: &mut [u8]) -> usize
    requires { svg_most < length text.old }
    ensures result { Put text.old 0 (refused_line (number_of refusal)) text.new result }
{
    let mut pen = Pen { out: text, at: 0 };
    lines::put_refused_line(&mut pen, u32::from(refusal));
    pen.at
}

// The line on bytes that break.
fn put_break(found: Break, text: &mut [u8]) -> usize
    requires { (found.place ≤ record_most) × (svg_most < length text.old) }
    ensures result { Put text.old 0 (broken_line (number_of found.refusal) found.place) text.new result }
{
    let mut pen = Pen { out: text, at: 0 };
    // `as`: the place is at most the longest record, and no From leads from usize to u32.
    lines::put_broken_line(&mut pen, u32::from(found.refusal), found.place as u32);
    pen.at
}

// The end of the line that path data is.
fn put_newline(text: &mut [u8], at: usize) -> usize
    requires { at < length text.old }
    ensures result { Put text.old at line_end text.new result }
{
    let mut pen = Pen { out: text, at };
    pen.byte(b'\n');
    pen.at
}

// The text of a curve.
fn put_drawing(degree: u32, knots: &[u16], xs: &[i32], ys: &[i32], text: &mut [u8]) -> usize
    requires { svg_most < length text.old }
    ensures result { Put text.old 0 (drawn_text degree (lists knots.now xs.now ys.now))
        text.new result }
{
    match svg_out::write_svg(degree, knots, xs, ys, text) {
        Ok(length) => put_newline(text, length),
        Err(refusal) => put_refusal(refusal, text),
    }
}

// The text of a curve that was read into the fronts of the lists.
fn put_read(stored: StoredCurve, knots: &[u16], xs: &[i32], ys: &[i32], text: &mut [u8]) -> usize
    requires fronts { (stored.points + stored.degree + 1 ≤ length knots.now) × (stored.points ≤ length xs.now) × (stored.points ≤ length ys.now) }
    requires room { svg_most < length text.old }
    ensures result { Put text.old 0
        (drawn_text stored.degree (front_of stored.degree stored.points (lists knots.now xs.now ys.now))) text.new result }
{
    let points = stored.points;
    // `as`: no From leads from u32 to usize.
    let end = points + stored.degree as usize + 1;
    put_drawing(
        stored.degree,
        &knots[..end],
        &xs[..points],
        &ys[..points],
        text,
    )
}

// Reads a record into places for the longest curve, puts its text at the front of the list, and answers how many bytes it put.
pub fn put_text(
    bytes: &[u8],
    knots: &mut [u16],
    xs: &mut [i32],
    ys: &mut [i32],
    text: &mut [u8],
) -> usize
    requires { Places (lists knots.old xs.old ys.old) text.old }
    ensures result { TextInFront bytes.now text.new result }
{
    match record::read_record(bytes, knots, xs, ys) {
        Ok(stored) => put_read(stored, knots, xs, ys, text),
        Err(Failure::Broken(found)) => put_break(found, text),
        Err(Failure::Refused(refusal)) => put_refusal(refusal, text),
    }
}
