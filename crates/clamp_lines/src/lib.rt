// All lines on a clamp, written by a pen: one for each span on which the cutter may meet it, or one that it is clear.
#![tactic(auto)]

ghost use Rattle.std.specs.Prelude.{◌≡◌, ◌+◌, ◌*◌, ◌≤◌, length};
ghost use Rattle.checked.specs.Along.{lists_of};
ghost use Rattle.grid.specs.Limits.{clamps_most};
ghost use Rattle.lines.specs.Lines.{clamp_text};
ghost use Rattle.digits.specs.Put.{Put};
ghost use Rattle.clamp_lines.specs.Places.{spans_most, text_most};
ghost use Rattle.clamp_lines.specs.ClampPart.{clamp_at, standing, where_sound, clamp_lines, clamp_part};

use boxes::Rectangle;
use checked::Curve;
use digits::Pen;

// The most spans of a curve: at degree 1.
const SPANS_MOST: usize = grid::POINTS_MOST - 1;

// Bytes of "clamp 64 may meet 16382..16383" and its newline.
const CLAMP_LINE_MOST: usize = 31;

// Bytes of the longest text on a clamp: such a line for each span.
pub const TEXT_MOST: usize = CLAMP_LINE_MOST * SPANS_MOST;

// The lines, from the knots of the listed spans.
fn put_listed(pen: &mut Pen<'_>, number: u32, lows: &[u16], highs: &[u16])
    requires { (number ≤ clamps_most) × (length highs.now ≡ length lows.now) × (length lows.now ≤ spans_most) × (pen.old.at + text_most ≤ length pen.old.out.now) }
    ensures result { Put pen.old.out.now pen.old.at (clamp_text number lows.now highs.now) pen.new.out.now pen.new.at }
    ensures name { pen.new.out.ghost_name ≡ pen.old.out.ghost_name }
{
    if lows.is_empty() {
        return lines::put_clear_line(pen, number);
    }
    lines::put_meet_lines(pen, number, lows, highs);
}

// The lines on a clamp with its number.
fn put_met(pen: &mut Pen<'_>, curve: Curve<'_>, radius: u32, number: u32, clamp: Rectangle)
    requires { (number ≤ clamps_most) × (pen.old.at + text_most ≤ length pen.old.out.now) }
    ensures result { Put pen.old.out.now pen.old.at
        (where_sound radius clamp (clamp_lines curve.entry.degree (lists_of curve.entry) radius number clamp)) pen.new.out.now pen.new.at }
    ensures name { pen.new.out.ghost_name ≡ pen.old.out.ghost_name }
{
    let mut lows = [0u16; SPANS_MOST];
    let mut highs = [0u16; SPANS_MOST];
    if let Ok(count) = spans_met::list_checked(curve, clamp, radius, &mut lows, &mut highs) {
        put_listed(pen, number, &lows[..count], &highs[..count]);
    }
}

// Whether clamp k, counted from 0, is one of the first `count`, a job may have it, and the list has its sides.
pub fn stands(count: usize, sides: &[i32], k: usize) -> bool
    ensures answer { result ≡ standing count sides.now k }
{
    k < count && k < grid::CLAMPS_MOST && 4 * k + 4 <= sides.len()
}

// Clamp k, counted from 0, of a list with four sides a clamp.
fn clamp_at(sides: &[i32], k: usize) -> Rectangle
    requires { 4 * k + 4 ≤ length sides.now }
    ensures answer { result ≡ clamp_at sides.now k }
{
    let at = 4 * k;
    Rectangle {
        low_x: sides[at],
        high_x: sides[at + 1],
        low_y: sides[at + 2],
        high_y: sides[at + 3],
    }
}

// The lines on clamp k, counted from 0, of the first `count`. A clamp's number is counted from 1.
pub fn put_clamp(
    pen: &mut Pen<'_>,
    curve: Curve<'_>,
    radius: u32,
    count: usize,
    sides: &[i32],
    k: usize,
)
    requires { pen.old.at + text_most ≤ length pen.old.out.now }
    ensures result { Put pen.old.out.now pen.old.at
        (clamp_part curve.entry.degree (lists_of curve.entry) radius count sides.now k) pen.new.out.now pen.new.at }
    ensures name { pen.new.out.ghost_name ≡ pen.old.out.ghost_name }
{
    if stands(count, sides, k) {
        // `as`: there are at most 64 clamps, and no From leads from usize to u32.
        put_met(pen, curve, radius, (k + 1) as u32, clamp_at(sides, k));
    }
}
