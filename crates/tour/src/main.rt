// The library as a Rattle caller uses it, on the worked curves A and B: the point, the carrying coordinates and a knot inserted. It prints a line for
// each answer; a coordinate of a point is printed by its 64 bits, in 16 hexadecimal digits.
#![tactic(auto)]

use carrying::Axis;
use point_at::PointAnswer;
use refusal::Refusal;

// A word and a number behind it, a write for each. What cannot be written is lost, here and below.
fn numbered(out: &impl Print, word: &str, number: u64) {
    let _ = print!(out; "{word}");
    let _ = print!(out; "{number}");
}

// The 64 bits of a coordinate.
fn bits(out: &impl Print, x: f64) {
    if x.is_nan() {
        let _ = print!(out; "nan");
        return;
    }
    let bits = x.to_bits();
    let _ = print!(out; "{bits:016x}");
}

// Coordinates of the worked curves.
fn coordinates(out: &impl Print, zs: &[i32]) {
    for z in zs {
        let _ = print!(out; " ");
        let _ = print!(out; "{z}");
    }
}

fn place(out: &impl Print, x: f64, y: f64) {
    let _ = print!(out; " x ");
    bits(out, x);
    let _ = print!(out; " y ");
    bits(out, y);
}

// An enum answer with a struct inside.
fn point(out: &impl Print, degree: u32, knots: &[u16], xs: &[i32], ys: &[i32], t: u32) {
    match point_at::point_at(degree, knots, xs, ys, t) {
        PointAnswer::At(p) => place(out, p.x, p.y),
        PointAnswer::Refused(number) => numbered(out, " refused ", u64::from(number)),
    }
}

// A part of one of two lent lists, and a lent number.
fn carried<'a>(
    out: &impl Print,
    degree: u32,
    knots: &[u16],
    xs: &'a [i32],
    ys: &'a [i32],
    t: u32,
    axis: Axis,
) {
    let mut refusal = 99;
    let part = carrying::carrying(degree, knots, xs, ys, t, axis, &mut refusal);
    coordinates(out, part);
    numbered(out, ", refusal ", u64::from(refusal));
}

// A Result: the number of points, or the refusal with its number.
fn answer(out: &impl Print, answer: Result<usize, Refusal>) {
    match answer {
        // `as`: no From leads from usize to u64.
        Ok(points) => numbered(out, " points ", points as u64),
        Err(refusal) => numbered(out, " refused ", u64::from(u32::from(refusal))),
    }
}

// Result lists that are lent, with a place to spare.
fn inserted(out: &impl Print, degree: u32, knots: &[u16], xs: &[i32], ys: &[i32], v: u32) {
    let mut new_knots = [7u16; 9];
    let mut new_xs = [7i32; 6];
    let mut new_ys = [7i32; 6];
    answer(
        out,
        insert_knot::insert_knot(
            degree,
            knots,
            xs,
            ys,
            v,
            &mut new_knots,
            &mut new_xs,
            &mut new_ys,
        ),
    );
    let _ = print!(out; ", x");
    coordinates(out, &new_xs);
}

fn curve_a(out: &impl Print, knots: &[u16], xs: &[i32], ys: &[i32]) {
    let _ = print!(out; "A at 1:");
    point(out, 3, knots, xs, ys, 1);
    let _ = print!(out; "\nA at 5:");
    point(out, 3, knots, xs, ys, 5);
}

fn curve_b<'a>(out: &impl Print, knots: &[u16], xs: &'a [i32], ys: &'a [i32]) {
    let _ = print!(out; "\nB at 4, carrying x:");
    carried(out, 2, knots, xs, ys, 4, Axis::X);
    let _ = print!(out; "\nB at 2, carrying y:");
    carried(out, 2, knots, xs, ys, 2, Axis::Y);
    let _ = print!(out; "\nB at 5, carrying y:");
    carried(out, 2, knots, xs, ys, 5, Axis::Y);
    let _ = print!(out; "\n1 into B:");
    inserted(out, 2, knots, xs, ys, 1);
    let _ = print!(out; "\n4 into B:");
    inserted(out, 2, knots, xs, ys, 4);
    let _ = print!(out; "\n");
}

fn main(rt: HostRuntime) {
    curve_a(&rt, &[0, 0, 0, 0, 4, 4, 4, 4], &[0, 0, 8, 8], &[0, 8, 8, 0]);
    curve_b(&rt, &[0, 0, 0, 2, 4, 4, 4], &[0, 4, 8, 12], &[0, 8, 8, 0]);
}
