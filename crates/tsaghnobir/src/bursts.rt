// Jobs that come in bursts.
ghost use Rattle.std.specs.Prelude.{◌≡◌};
ghost use Rattle.lent.specs.Lent.{after};
ghost use Rattle.curve.specs.Lists.{lists};
ghost use Rattle.keeping.specs.Kept.{kept_with, received_with};
ghost use Rattle.feed.specs.Burst.{work_number};
ghost use Rattle.tsaghnobir.specs.Places.{placed};
ghost use Rattle.tsaghnobir.specs.Outcomes.{FeedHandsBack};

use crate::bytes;
use feed::Feed;

pub fn tsb_feed(burst: &[u8], work: &mut [u8], received: &mut usize) -> u32
    ensures answer { result ≡ work_number work.old }
    ensures result { work.new ≡ after result (kept_with received.old burst.now work.old) work.old }
    ensures count { received.new ≡ placed result (received_with received.old burst.now work.old) received.old }
{
    let state = Feed {
        received: *received,
    };
    let answer = feed::feed_burst(state, burst, work);
    match answer {
        Ok(next) => {
            *received = next.received;
            0
        }
        Err(refusal) => refusal.into(),
    }
}

pub fn tsb_feed_end(
    work: &[u8],
    out_knots: &mut [u16],
    out_xs: &mut [i32],
    out_ys: &mut [i32],
    clamps: &mut [i32],
    degree: &mut u32,
    points: &mut usize,
    radius: &mut u32,
    clamp_count: &mut usize,
    place: &mut usize,
    received: &mut usize,
) -> u32
    ensures answer { FeedHandsBack received.old work.now
        (lists out_knots.old out_xs.old out_ys.old) clamps.old
        (degree.old, points.old, radius.old, clamp_count.old, place.old) result
        (lists out_knots.new out_xs.new out_ys.new) clamps.new
        (degree.new, points.new, radius.new, clamp_count.new, place.new) received.new }
{
    let state = Feed {
        received: *received,
    };
    let ended = feed::feed_end(state, work, out_knots, out_xs, out_ys, clamps);
    *received = ended.state.received;
    let answer = ended.answer;
    bytes::place_job(answer, degree, points, radius, clamp_count, place)
}
