// Inserting and removing knots, and compaction.
ghost use Rattle.std.specs.Prelude.{◌≡◌, ◌+◌, length};
ghost use Rattle.curve.specs.Lists.{lists};
ghost use Rattle.curve.specs.HandingOver.{handed_over};
ghost use Rattle.insertion.specs.Insertion.{inserted};
ghost use Rattle.insertion.specs.Judged.{insertion_number};
ghost use Rattle.tsaghnobir.specs.Places.{placed};
ghost use Rattle.tsaghnobir.specs.Outcomes.{RemovalHandsBack, CompactionHandsBack};

use crate::places::put;

pub fn tsb_insert(
    degree: u32,
    knots: &[u16],
    xs: &[i32],
    ys: &[i32],
    v: u32,
    out_knots: &mut [u16],
    out_xs: &mut [i32],
    out_ys: &mut [i32],
    points: &mut usize,
) -> u32
    ensures answer { result ≡ insertion_number degree (lists knots.now xs.now ys.now) v
        (lists out_knots.old out_xs.old out_ys.old) }
    ensures result { lists out_knots.new out_xs.new out_ys.new
        ≡ handed_over result (inserted degree (lists knots.now xs.now ys.now) v)
        (lists out_knots.old out_xs.old out_ys.old) }
    ensures count { points.new ≡ placed result (length xs.now + 1) points.old }
{
    let answer = insert_knot::insert_knot(degree, knots, xs, ys, v, out_knots, out_xs, out_ys);
    put(answer, points)
}

pub fn tsb_remove(
    degree: u32,
    knots: &[u16],
    xs: &[i32],
    ys: &[i32],
    v: u32,
    out_knots: &mut [u16],
    out_xs: &mut [i32],
    out_ys: &mut [i32],
    points: &mut usize,
) -> u32
    ensures answer { RemovalHandsBack degree (lists knots.now xs.now ys.now) v
        (lists out_knots.old out_xs.old out_ys.old) points.old result
        (lists out_knots.new out_xs.new out_ys.new) points.new }
{
    let answer = remove_knot::remove_knot(degree, knots, xs, ys, v, out_knots, out_xs, out_ys);
    put(answer, points)
}

pub fn tsb_compact(
    degree: u32,
    knots: &[u16],
    xs: &[i32],
    ys: &[i32],
    out_knots: &mut [u16],
    out_xs: &mut [i32],
    out_ys: &mut [i32],
    points: &mut usize,
    removed: &mut usize,
) -> u32
    ensures answer { CompactionHandsBack degree (lists knots.now xs.now ys.now)
        (lists out_knots.old out_xs.old out_ys.old) (points.old, removed.old) result
        (lists out_knots.new out_xs.new out_ys.new) (points.new, removed.new) }
{
    let answer = compact::compact(degree, knots, xs, ys, out_knots, out_xs, out_ys);
    match answer {
        Ok(count) => {
            *points = xs.len() - count;
            *removed = count;
            0
        }
        Err(refusal) => refusal.into(),
    }
}
