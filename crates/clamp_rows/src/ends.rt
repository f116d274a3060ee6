// What is read of an end of an axis.
ghost use Rattle.clamp_rows.specs.Near.{Near};

// How far the first two knots inside and outside lie from the end of the domain, and the first three points.
#[derive(Clone, Copy, PartialEq, Eq, Debug)]
pub struct NearEnd {
    pub inside: [u64; 2],
    pub outside: [u64; 2],
    pub point: [i64; 3],
    pub ghost near: { Near inside outside point },
}
