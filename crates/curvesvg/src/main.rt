// curvesvg: reads a record on standard input and writes its curve as path data of SVG.
#![tactic(auto)]

ghost use Rattle.std.specs.Prelude.{◌<◌, length};
ghost use Rattle.std.specs.Counts.{IsPrefixLen};
ghost use Rattle.curve.specs.Lists.{lists};
ghost use Rattle.grid.specs.Limits.{record_most};
ghost use Rattle.svg_text.specs.Text.{SvgTextOf};
ghost use Rattle.svg_text.specs.Program.{Places};

use std::io::{Read, Stdin, Stdout, Write};

// Writes the text of the bytes, and asks that it be theirs. What cannot be written is lost.
fn write_text(out: &mut Stdout, bytes: &[u8], text: &[u8])
    requires { SvgTextOf bytes.now text.now }
{
    let _ = out.write_all(text);
}

// Reads a record into places for the longest one, and writes its text.
fn draw(
    out: &mut Stdout,
    bytes: &[u8],
    knots: &mut [u16],
    xs: &mut [i32],
    ys: &mut [i32],
    text: &mut [u8],
)
    requires { Places (lists knots.old xs.old ys.old) text.old }
{
    let n = svg_text::put_text(bytes, knots, xs, ys, text);
    write_text(out, bytes, &text[..n]);
}

// The places.
fn draw_in_places(out: &mut Stdout, bytes: &[u8]) {
    let mut knots = [0u16; grid::KNOTS_MOST];
    let mut xs = [0i32; grid::POINTS_MOST];
    let mut ys = [0i32; grid::POINTS_MOST];
    let mut text = [0u8; svg_text::TEXT_MOST];
    draw(
        out,
        bytes,
        &mut knots[..grid::KNOTS_MOST],
        &mut xs[..grid::POINTS_MOST],
        &mut ys[..grid::POINTS_MOST],
        &mut text[..svg_text::TEXT_MOST],
    );
}

// Reads all input; where it fails, the input ends there. Where it is longer than the longest record, a byte too many shows it.
fn read_input(from: &mut Stdin, input: &mut [u8]) -> usize
    requires { record_most < length input.old }
    ensures count { IsPrefixLen result input.new }
{
    let mut filled = 0;
    for _ in 0..input.len() {
        let count = from.read(&mut input[filled..]).unwrap_or(0);
        if count == 0 {
            break;
        }
        filled += count;
    }
    filled
}

fn main(rt: HostRuntime) {
    let mut input = [0u8; grid::RECORD_MOST + 1];
    let n = read_input(&mut rt.stdin(), &mut input);
    draw_in_places(&mut rt.stdout(), &input[..n]);
}
