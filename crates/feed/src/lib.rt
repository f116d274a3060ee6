// Reads a job that comes in bursts: each burst is kept in a work list, which is lent to every call, and all of them are read at the end.
#![tactic(auto)]

ghost use Rattle.std.specs.Prelude.{◌≡◌, ◌≤◌, length};
ghost use Rattle.grid.specs.Limits.{job_most};
ghost use Rattle.curve.specs.Lists.{lists};
ghost use Rattle.feed.specs.Burst.{burst_answer, work_after};
ghost use Rattle.feed.specs.Ending.{ReadsHeld, FeedEnds};

use job::Job;
use refusal::Refusal;
use taken_field::{Break, Failure};

// What is kept between the calls beside the work list: how many bytes were received, 0 before the first burst.
#[derive(Clone, Copy, PartialEq, Eq, Debug)]
pub struct Feed {
    pub received: usize,
}

// What reading the job answers, and the state for whatever comes next. No Result: there is a state both ways.
#[derive(Clone, Copy, PartialEq, Eq, Debug)]
pub struct EndAnswer {
    pub answer: Result<Job, Failure>,
    pub state: Feed,
}

// Takes a burst in, and answers the state after it. Nothing is judged yet.
pub fn feed_burst(state: Feed, burst: &[u8], work: &mut [u8]) -> Result<Feed, Refusal>
    ensures answer { result ≡ burst_answer state burst.now work.old }
    ensures result { work.new ≡ work_after state burst.now work.old }
{
    if work.len() < grid::JOB_MOST {
        return Err(Refusal::Room);
    }
    let received = keeping::keep(state.received, burst, work);
    Ok(Feed { received })
}

// Told the end: reads all that was received.
pub fn feed_end(
    state: Feed,
    work: &[u8],
    out_knots: &mut [u16],
    out_xs: &mut [i32],
    out_ys: &mut [i32],
    clamps: &mut [i32],
) -> EndAnswer
    ensures answer { FeedEnds state work.now (lists out_knots.old out_xs.old out_ys.old)
        clamps.old result (lists out_knots.new out_xs.new out_ys.new) clamps.new }
{
    if work.len() < grid::JOB_MOST {
        return EndAnswer {
            answer: Err(Failure::Refused(Refusal::Room)),
            state,
        };
    }
    let answer = read_received(state.received, work, out_knots, out_xs, out_ys, clamps);
    EndAnswer {
        answer,
        state: Feed { received: 0 },
    }
}

// Reads the bytes received. Where more came than the list holds, no job is so long: the list is judged, and if it is a job itself the first byte behind it is left over.
fn read_received(
    received: usize,
    work: &[u8],
    out_knots: &mut [u16],
    out_xs: &mut [i32],
    out_ys: &mut [i32],
    clamps: &mut [i32],
) -> Result<Job, Failure>
    requires { job_most ≤ length work.now }
    ensures answer { ReadsHeld received work.now (lists out_knots.old out_xs.old out_ys.old)
        clamps.old result (lists out_knots.new out_xs.new out_ys.new) clamps.new }
{
    if received <= work.len() {
        return job::read_job(&work[..received], out_knots, out_xs, out_ys, clamps);
    }
    job::judge_job(work)?;
    Err(Failure::Broken(Break {
        refusal: Refusal::LeftOver,
        place: grid::JOB_MOST,
    }))
}
