// clampcheck: reads a job on standard input and tells which spans of its curve may meet which clamp.
#![tactic(auto)]

ghost use Rattle.std.specs.Prelude.{◌≡◌, ◌+◌, ◌≤◌, ◌<◌, length};
ghost use Rattle.std.specs.Counts.{IsPrefixLen};
ghost use Rattle.curve.specs.Lists.{lists};
ghost use Rattle.grid.specs.Limits.{clamps_most, job_most};
ghost use Rattle.clamp_lines.specs.Places.{text_most};
ghost use Rattle.job_text.specs.Text.{PartOf};
ghost use Rattle.job_text.specs.Program.{Places, ReadInPlaces};

use job::Job;
use std::io::{Read, Stdin, Stdout, Write};
use taken_field::Failure;

// Writes part k of the text of the job, asks that it be that part, and answers the number of the next. What cannot be written is lost.
fn write_part(out: &mut Stdout, job: &[u8], k: usize, part: &[u8]) -> usize
    requires { (k ≤ clamps_most) × PartOf job.now k part.now }
    ensures count { result ≡ k + 1 }
{
    let _ = out.write_all(part);
    k + 1
}

// Writes the parts of the text one after the other, and answers how many: as many as make the whole text.
fn write_parts(
    out: &mut Stdout,
    job: &[u8],
    answer: Result<Job, Failure>,
    knots: &[u16],
    xs: &[i32],
    ys: &[i32],
    sides: &[i32],
    text: &mut [u8],
) -> usize
    requires { ReadInPlaces job.now answer (lists knots.now xs.now ys.now) sides.now × (text_most ≤ length text.old) }
    ensures count { result ≡ clamps_most + 1 }
{
    let told = report::told(answer);
    let mut written = 0;
    for k in 0..grid::CLAMPS_MOST + 1 {
        let n = report::put_part(told, knots, xs, ys, sides, k, text);
        written = write_part(out, job, k, &text[..n]);
    }
    written
}

// Reads a job into places for the longest one, and writes its text.
fn tell(
    out: &mut Stdout,
    job: &[u8],
    knots: &mut [u16],
    xs: &mut [i32],
    ys: &mut [i32],
    sides: &mut [i32],
    text: &mut [u8],
)
    requires { Places (lists knots.old xs.old ys.old) sides.old × (text_most ≤ length text.old) }
{
    let answer = job::read_job(job, knots, xs, ys, sides);
    write_parts(out, job, answer, knots, xs, ys, sides, text);
}

// The places.
fn tell_in_places(out: &mut Stdout, job: &[u8]) {
    let mut knots = [0u16; grid::KNOTS_MOST];
    let mut xs = [0i32; grid::POINTS_MOST];
    let mut ys = [0i32; grid::POINTS_MOST];
    let mut sides = [0i32; grid::SIDES_MOST];
    let mut text = [0u8; report::TEXT_MOST];
    tell(
        out,
        job,
        &mut knots[..grid::KNOTS_MOST],
        &mut xs[..grid::POINTS_MOST],
        &mut ys[..grid::POINTS_MOST],
        &mut sides[..grid::SIDES_MOST],
        &mut text[..report::TEXT_MOST],
    );
}

// Reads all input; where it fails, the input ends there. Where it is longer than the longest job, a byte too many shows it.
fn read_input(from: &mut Stdin, input: &mut [u8]) -> usize
    requires { job_most < length input.old }
    ensures count { IsPrefixLen result input.new }
{
    let mut filled = 0;
    for _ in 0..input.len() {
        let count = from.read(&mut input[filled..]).unwrap_or(0);
        if count == 0 {
            break;
        }
        filled += count;
    }
    filled
}

fn main(rt: HostRuntime) {
    let mut input = [0u8; grid::JOB_MOST + 1];
    let n = read_input(&mut rt.stdin(), &mut input);
    tell_in_places(&mut rt.stdout(), &input[..n]);
}
