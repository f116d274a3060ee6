// Reads a job: a curve's record, and behind it the cutter's radius and the clamps.
#![tactic(auto)]

ghost use Rattle.std.specs.Prelude.{◌≡◌};
ghost use Rattle.curve.specs.Lists.{lists};
ghost use Rattle.job.specs.JobJudging.{job_layout};
ghost use Rattle.job.specs.JobReading.{JobJudged, JobRead};

use curve::Lent;
use layout::Layout;
use refusal::Refusal;
use stored_curve::Stored;
use taken_field::{Break, Failure};

// The lengths of a job's fields of knots, x and y, and the number of its clamps.
#[derive(Clone, Copy, PartialEq, Eq, Debug)]
pub struct JobLayout {
    pub curve: Layout,
    pub clamps: usize,
}

// Degree, number of points, radius and number of clamps of a job that was read.
#[derive(Clone, Copy, PartialEq, Eq, Debug)]
pub struct Job {
    pub degree: u32,
    pub points: usize,
    pub radius: u32,
    pub clamps: usize,
}

// Judges the fields of the whole job: the record's, the radius', the clamps'.
#[tactic(auto, unfolding(crate::specs::JobJudging::job_layout, crate::specs::JobJudging::behind_record))]
fn job_layout(bytes: &[u8]) -> Result<JobLayout, Break>
    ensures answer { result ≡ job_layout bytes.now }
{
    let curve = layout::record_layout(bytes)?;
    let end = format::BEFORE_Y + curve.knots + curve.xs + curve.ys;
    cutter::take_radius(bytes, end)?;
    let clamps = clamps::clamps_behind(bytes, end + cutter::RADIUS_FIELD_BYTES)?;
    Ok(JobLayout { curve, clamps })
}

// Whether bytes are a job, and where they break if they are none.
pub fn judge_job(bytes: &[u8]) -> Result<(), Break>
    ensures answer { JobJudged bytes.now result }
{
    job_layout(bytes)?;
    Ok(())
}

// Reads the job's curve into the front of three lists, and the sides of its clamps into that of a fourth. The curve is checked, then the radius, then
// the clamps, and then all is handed over where there is room.
pub fn read_job(
    bytes: &[u8],
    out_knots: &mut [u16],
    out_xs: &mut [i32],
    out_ys: &mut [i32],
    clamps: &mut [i32],
) -> Result<Job, Failure>
    ensures answer { JobRead bytes.now (lists out_knots.old out_xs.old out_ys.old)
        clamps.old result (lists out_knots.new out_xs.new out_ys.new) clamps.new }
{
    let layout = job_layout(bytes)?;
    let curve = layout.curve;
    let count = layout.clamps;
    let stored = Stored {
        bytes,
        layout: curve,
    };
    stored_check::curve_number(stored)?;
    let end = format::BEFORE_Y + curve.knots + curve.xs + curve.ys;
    let radius = cutter::radius_in(bytes, end);
    refusal::require(grid::radius_ok(radius), Refusal::Radius)?;
    let start = end + cutter::RADIUS_FIELD_BYTES;
    refusal::require(clamps::clamps_ok(bytes, start, count), Refusal::Rectangle)?;
    refusal::require(clamps::CLAMP_SIDES * count <= clamps.len(), Refusal::Room)?;
    let into = Lent {
        knots: out_knots,
        xs: out_xs,
        ys: out_ys,
    };
    stored.hand_over(into)?;
    clamps::read_clamps(bytes, start, count, clamps);
    Ok(Job {
        degree: stored.degree(),
        points: curve.xs / 4,
        radius,
        clamps: count,
    })
}
