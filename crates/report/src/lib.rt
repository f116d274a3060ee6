// The text of `clampcheck`, a part at a time: part 0 is the line on the curve or on the refusal, part k all lines on clamp k.
#![tactic(auto)]

mod curve_line;

ghost use Rattle.std.specs.Prelude.{◌≡◌, ◌+◌, ◌≤◌, length};
ghost use Rattle.curve.specs.Lists.{lists};
ghost use Rattle.checked.specs.Along.{lists_of};
ghost use Rattle.digits.specs.Put.{Put};
ghost use Rattle.clamp_lines.specs.Places.{text_most};
ghost use Rattle.report.specs.Part.{fault_of, told, refused_part, broken_part, fault_part, curve_part, job_part, answer_part, part_put};

use checked::Curve;
pub use clamp_lines::TEXT_MOST;
use digits::Pen;
use job::Job;
use taken_field::Failure;

// Why a file has no curve to tell of: a number, and the place where its bytes break, if they do. Any number may stand here, also one that no reader gives.
#[derive(Clone, Copy, PartialEq, Eq, Debug)]
pub struct Fault {
    pub number: u32,
    pub place: Option<usize>,
}

impl From<Failure> for Fault {
    ghost from_gives = { λ failure fault. fault ≡ fault_of failure };

    fn from(failure: Failure) -> Fault {
        match failure {
            Failure::Broken(broken) => Fault {
                number: broken.refusal.into(),
                place: Some(broken.place),
            },
            Failure::Refused(refusal) => Fault {
                number: refusal.into(),
                place: None,
            },
        }
    }
}

// What is told of a reader's answer.
pub fn told(answer: Result<Job, Failure>) -> Result<Job, Fault>
    ensures answer { result ≡ told answer }
{
    Ok(answer?)
}

// Part k of a refusal.
fn put_refusal(pen: &mut Pen<'_>, number: u32, k: usize)
    requires { pen.old.at + text_most ≤ length pen.old.out.now }
    ensures result { Put pen.old.out.now pen.old.at (refused_part number k) pen.new.out.now pen.new.at }
    ensures name { pen.new.out.ghost_name ≡ pen.old.out.ghost_name }
{
    if k == 0 {
        lines::put_refused_line(pen, number);
    }
}

// Part k of bytes that are no job.
fn put_broken(pen: &mut Pen<'_>, number: u32, place: usize, k: usize)
    requires { pen.old.at + text_most ≤ length pen.old.out.now }
    ensures result { Put pen.old.out.now pen.old.at (broken_part number place k) pen.new.out.now pen.new.at }
    ensures name { pen.new.out.ghost_name ≡ pen.old.out.ghost_name }
{
    if k == 0 && place <= grid::JOB_MOST {
        // `as`: the place is at most the longest job, and no From leads from usize to u32.
        lines::put_broken_line(pen, number, place as u32);
    }
}

// Part k of a file with no curve to tell of.
fn put_fault(pen: &mut Pen<'_>, fault: Fault, k: usize)
    requires { pen.old.at + text_most ≤ length pen.old.out.now }
    ensures result { Put pen.old.out.now pen.old.at (fault_part fault.number fault.place k)
        pen.new.out.now pen.new.at }
    ensures name { pen.new.out.ghost_name ≡ pen.old.out.ghost_name }
{
    match fault.place {
        Some(place) => put_broken(pen, fault.number, place, k),
        None => put_refusal(pen, fault.number, k),
    }
}

// Part k of a curve with the cutter's radius and its clamps.
fn put_curve_part(
    pen: &mut Pen<'_>,
    curve: Curve<'_>,
    radius: u32,
    count: usize,
    sides: &[i32],
    k: usize,
)
    requires { pen.old.at + text_most ≤ length pen.old.out.now }
    ensures result { Put pen.old.out.now pen.old.at
        (curve_part curve.entry.degree (lists_of curve.entry) radius count sides.now k)
        pen.new.out.now pen.new.at }
    ensures name { pen.new.out.ghost_name ≡ pen.old.out.ghost_name }
{
    if k == 0 {
        return curve_line::put_curve(pen, curve);
    }
    clamp_lines::put_clamp(pen, curve, radius, count, sides, k - 1);
}

// Part k of a job that was read into the fronts of the lists.
fn put_job(
    pen: &mut Pen<'_>,
    job: Job,
    knots: &[u16],
    xs: &[i32],
    ys: &[i32],
    sides: &[i32],
    k: usize,
)
    requires { pen.old.at + text_most ≤ length pen.old.out.now }
    ensures result { Put pen.old.out.now pen.old.at
        (job_part job.degree job.points job.radius job.clamps (lists knots.now xs.now ys.now) sides.now k)
        pen.new.out.now pen.new.at }
    ensures name { pen.new.out.ghost_name ≡ pen.old.out.ghost_name }
{
    // A part past the last clamp is empty whatever the curve is, so the curve is not checked for it.
    if k > 0 && !clamp_lines::stands(job.clamps, sides, k - 1) {
        return;
    }
    let points = job.points;
    if xs.len() < points {
        return;
    }
    // `as`: no From leads from u32 to usize.
    let end = points + job.degree as usize + 1;
    if !curve::room_for(end, points, points, knots.len(), xs.len(), ys.len()) {
        return;
    }
    if let Ok(curve) = Curve::check(job.degree, &knots[..end], &xs[..points], &ys[..points]) {
        put_curve_part(pen, curve, job.radius, job.clamps, sides, k);
    }
}

// Part k, from an answer and the lists that were filled.
fn put_answer(
    pen: &mut Pen<'_>,
    answer: Result<Job, Fault>,
    knots: &[u16],
    xs: &[i32],
    ys: &[i32],
    sides: &[i32],
    k: usize,
)
    requires { pen.old.at + text_most ≤ length pen.old.out.now }
    ensures result { Put pen.old.out.now pen.old.at
        (answer_part answer (lists knots.now xs.now ys.now) sides.now k) pen.new.out.now pen.new.at }
    ensures name { pen.new.out.ghost_name ≡ pen.old.out.ghost_name }
{
    match answer {
        Ok(job) => put_job(pen, job, knots, xs, ys, sides, k),
        Err(fault) => put_fault(pen, fault, k),
    }
}

// Puts part k at the front of the text, from any answer and the lists that were filled, and answers how many bytes it put.
pub fn put_part(
    answer: Result<Job, Fault>,
    knots: &[u16],
    xs: &[i32],
    ys: &[i32],
    sides: &[i32],
    k: usize,
    text: &mut [u8],
) -> usize
    ensures result { Put text.old 0 (part_put answer (lists knots.now xs.now ys.now) sides.now k
        (length text.old)) text.new result }
{
    if text.len() < TEXT_MOST {
        return 0;
    }
    let mut pen = Pen { out: text, at: 0 };
    put_answer(&mut pen, answer, knots, xs, ys, sides, k);
    pen.at
}
