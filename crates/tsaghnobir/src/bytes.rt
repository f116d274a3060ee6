// Writing and reading records, and reading jobs.
ghost use Rattle.std.specs.Prelude.{◌≡◌};
ghost use lib.ListN.{length};
ghost use Rattle.lent.specs.Lent.{after};
ghost use Rattle.curve.specs.Lists.{lists};
ghost use Rattle.format.specs.Format.{form1, record_bytes};
ghost use Rattle.record.specs.Writing.{write_number};
ghost use Rattle.tsaghnobir.specs.Places.{placed};
ghost use Rattle.tsaghnobir.specs.Outcomes.{RecordHandsBack, JobHandsBack};
ghost use Rattle.tsaghnobir.specs.Answered.{failure_placed, record_placed, job_placed};

use crate::places::put;
use job::Job;
use record::StoredCurve;
use taken_field::Failure;

pub fn tsb_write_record(
    degree: u32,
    knots: &[u16],
    xs: &[i32],
    ys: &[i32],
    out: &mut [u8],
    length: &mut usize,
) -> u32
    ensures answer { result ≡ write_number degree (lists knots.now xs.now ys.now) out.old }
    ensures result { out.new
        ≡ after result (record_bytes form1 degree (lists knots.now xs.now ys.now)) out.old }
    ensures count { length.new
        ≡ placed result (lib.ListN.length (record_bytes form1 degree (lists knots.now xs.now ys.now))) length.old }
{
    let answer = record::write_record(degree, knots, xs, ys, out);
    put(answer, length)
}

pub fn tsb_read_record(
    bytes: &[u8],
    out_knots: &mut [u16],
    out_xs: &mut [i32],
    out_ys: &mut [i32],
    degree: &mut u32,
    points: &mut usize,
    place: &mut usize,
) -> u32
    ensures answer { RecordHandsBack bytes.now (lists out_knots.old out_xs.old out_ys.old)
        (degree.old, points.old, place.old) result
        (lists out_knots.new out_xs.new out_ys.new) (degree.new, points.new, place.new) }
{
    let answer = record::read_record(bytes, out_knots, out_xs, out_ys);
    place_record(answer, degree, points, place)
}

pub fn tsb_read_job(
    bytes: &[u8],
    out_knots: &mut [u16],
    out_xs: &mut [i32],
    out_ys: &mut [i32],
    clamps: &mut [i32],
    degree: &mut u32,
    points: &mut usize,
    radius: &mut u32,
    clamp_count: &mut usize,
    place: &mut usize,
) -> u32
    ensures answer { JobHandsBack bytes.now (lists out_knots.old out_xs.old out_ys.old)
        clamps.old (degree.old, points.old, radius.old, clamp_count.old, place.old) result
        (lists out_knots.new out_xs.new out_ys.new) clamps.new
        (degree.new, points.new, radius.new, clamp_count.new, place.new) }
{
    let answer = job::read_job(bytes, out_knots, out_xs, out_ys, clamps);
    place_job(answer, degree, points, radius, clamp_count, place)
}

// The number of a failure; where bytes break, the place goes to its own.
fn place_failure(failure: Failure, place: &mut usize) -> u32
    ensures answer { (result, place.new) ≡ failure_placed failure place.old }
{
    match failure {
        Failure::Broken(found) => {
            *place = found.place;
            found.refusal.into()
        }
        Failure::Refused(refusal) => refusal.into(),
    }
}

// Writes what reading a record answers through the places lent for it, and answers the number.
fn place_record(
    answer: Result<StoredCurve, Failure>,
    degree: &mut u32,
    points: &mut usize,
    place: &mut usize,
) -> u32
    ensures answer { (result, (degree.new, points.new, place.new))
        ≡ record_placed answer (degree.old, points.old, place.old) }
{
    match answer {
        Ok(found) => {
            *degree = found.degree;
            *points = found.points;
            0
        }
        Err(failure) => place_failure(failure, place),
    }
}

// Writes what reading a job answers through the places lent for it, and answers the number.
pub(crate) fn place_job(
    answer: Result<Job, Failure>,
    degree: &mut u32,
    points: &mut usize,
    radius: &mut u32,
    clamp_count: &mut usize,
    place: &mut usize,
) -> u32
    ensures answer { (result, (degree.new, points.new, radius.new, clamp_count.new, place.new))
        ≡ job_placed answer (degree.old, points.old, radius.old, clamp_count.old, place.old) }
{
    match answer {
        Ok(found) => {
            *degree = found.degree;
            *points = found.points;
            *radius = found.radius;
            *clamp_count = found.clamps;
            0
        }
        Err(failure) => place_failure(failure, place),
    }
}
