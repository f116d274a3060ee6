// The triangle in one row: an array of four numbers that goes into a step and comes out of it by value, with the next row written over the one before.
// Entries stand from place 3 to the left: every place is a fixed one, whatever the degree, so the compiler keeps the row in registers.
#![tactic(auto)]

ghost use Rattle.std.specs.Prelude.{◌≡◌, List, ℕ, ◌+◌, ◌-◌, ◌≤◌, ◌<◌, ℤ, pos, length, get_or};
ghost use Rattle.std.specs.Float.Ieee.{of_int};
ghost use Rattle.std.specs.Float.{binary64};
ghost use Rattle.triangle.specs.FloatTriangle.{cell_at, coordinate_of};
ghost use Rattle.rows.specs.Row.{HoldsRow};

// One axis of a curve, a span of it, and a parameter in that span.
#[derive(Clone, Copy)]
struct Triangle<'a> {
    pub degree: usize,
    pub knots: &'a [u16],
    pub ps: &'a [i32],
    pub span: usize,
    pub t: u16,
    pub ghost least: { 1 ≤ degree },
    pub ghost most: { degree ≤ 3 },
    pub ghost first: { degree ≤ span },
    pub ghost point: { span < length ps.now },
    pub ghost knot: { span + degree < length knots.now },
}

impl Triangle<'_> {
    // Coordinate j as it enters the triangle.
    fn entry(self, j: usize) -> f64
        requires { j < length self.ps.now }
        ensures answer { result ≡ of_int binary64 (get_or self.entry.ps.now j (pos 0)) }
    {
        f64::from(self.ps[j])
    }

    // Row 0: the carrying coordinates of the span, the last at place 3.
    fn first_row(self) -> [f64; 4]
        ensures answer { HoldsRow self.entry.degree self.entry.knots.now self.entry.ps.now self.entry.t self.entry.span 0 result }
    {
        let third = self.entry(self.span - 1);
        let last = self.entry(self.span);
        let mut row = [0.0, 0.0, third, last];
        if self.degree >= 2 {
            row[1] = self.entry(self.span - 2);
        }
        if self.degree >= 3 {
            row[0] = self.entry(self.span - 3);
        }
        row
    }

    // The cell of row r at j, from the two entries of the row before.
    fn cell_at(self, r: usize, j: usize, l: f64, d: f64) -> f64
        requires { (r ≤ self.degree) × (j + (self.degree - r) + 1 < length self.knots.now) }
        ensures answer { result ≡ cell_at self.entry.degree self.entry.knots.now self.entry.t r j l d }
    {
        let after = j + (self.degree - r) + 1;
        let low = self.knots[j];
        let high = self.knots[after];
        triangle::cell(
            triangle::difference(high, self.t),
            triangle::difference(self.t, low),
            triangle::difference(high, low),
            l,
            d,
        )
    }

    // Row r + 1 over row r. A cell reads its own place and the one in front of it, so places are written from the end: each is read before it is written.
    fn next_row(self, mut row: [f64; 4], r: usize) -> [f64; 4]
        requires { r < self.degree }
        ensures answer { HoldsRow self.entry.degree self.entry.knots.now self.entry.ps.now self.entry.t self.entry.span r row
            → HoldsRow self.entry.degree self.entry.knots.now self.entry.ps.now self.entry.t self.entry.span (r + 1) result }
    {
        for k in 0..3 {
            if r + k < self.degree {
                let place = 3 - k;
                let j = self.span + place - 3;
                row[place] = self.cell_at(r + 1, j, row[place - 1], row[place]);
            }
        }
        row
    }

    // The one entry of the last row: row 0, and a step for each further row.
    fn last_entry(self) -> f64
        ensures answer { result ≡ coordinate_of self.entry.degree self.entry.knots.now self.entry.ps.now self.entry.span self.entry.t }
    {
        let mut row = self.first_row();
        row = self.next_row(row, 0);
        if self.degree > 1 {
            row = self.next_row(row, 1);
        }
        if self.degree > 2 {
            row = self.next_row(row, 2);
        }
        row[3]
    }
}

// One coordinate of the point. Its callers pass the parts: a Triangle by value goes through memory, and a point takes a seventh more time.
pub fn coordinate(knots: &[u16], ps: &[i32], degree: usize, span: usize, t: u16) -> f64
    requires { (1 ≤ degree) × (degree ≤ 3) × (degree ≤ span) × (span < length ps.now) × (span + degree < length knots.now) }
    ensures answer { result ≡ coordinate_of degree knots.now ps.now span t }
{
    let triangle = Triangle {
        degree,
        knots,
        ps,
        span,
        t,
    };
    triangle.last_entry()
}
