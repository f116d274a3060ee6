// Writes a curve as a record, and reads one.
#![tactic(auto)]

ghost use Rattle.std.specs.Prelude.{◌≡◌};
ghost use Rattle.lent.specs.Lent.{after};
ghost use Rattle.curve.specs.Lists.{lists};
ghost use Rattle.format.specs.Format.{form1, record_bytes};
ghost use Rattle.record.specs.Reading.{RecordRead};
ghost use Rattle.record.specs.Writing.{write_number, WriteAnswers};

use checked::Curve;
use curve::Lent;
use refusal::Refusal;
use stored_curve::Stored;
use taken_field::Failure;

// Degree and number of points of a curve that was read.
#[derive(Clone, Copy, PartialEq, Eq, Debug)]
pub struct StoredCurve {
    pub degree: u32,
    pub points: usize,
}

// Writes the curve's record into the front of `out`, and answers how many bytes it has.
pub fn write_record(
    degree: u32,
    knots: &[u16],
    xs: &[i32],
    ys: &[i32],
    out: &mut [u8],
) -> Result<usize, Refusal>
    ensures answer { WriteAnswers degree (lists knots.now xs.now ys.now) out.old result }
    ensures result { out.new
        ≡ after (write_number degree (lists knots.now xs.now ys.now) out.old)
        (record_bytes form1 degree (lists knots.now xs.now ys.now)) out.old }
{
    let curve = Curve::check(degree, knots, xs, ys)?;
    let size = format::BEFORE_Y + 2 * knots.len() + 4 * xs.len() + 4 * ys.len();
    if out.len() < size {
        return Err(Refusal::Room);
    }
    record_fields::put_record(curve, out);
    Ok(size)
}

// Reads the record's curve into the front of three lists: it is checked, and then handed over where there is room.
pub fn read_record(
    bytes: &[u8],
    out_knots: &mut [u16],
    out_xs: &mut [i32],
    out_ys: &mut [i32],
) -> Result<StoredCurve, Failure>
    ensures answer { RecordRead bytes.now (lists out_knots.old out_xs.old out_ys.old) result
        (lists out_knots.new out_xs.new out_ys.new) }
{
    let layout = layout::whole_record(bytes)?;
    let stored = Stored { bytes, layout };
    stored_check::curve_number(stored)?;
    let into = Lent {
        knots: out_knots,
        xs: out_xs,
        ys: out_ys,
    };
    stored.hand_over(into)?;
    Ok(StoredCurve {
        degree: stored.degree(),
        points: layout.xs / 4,
    })
}
