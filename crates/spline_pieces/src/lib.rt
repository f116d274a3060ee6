// The pieces between spline points ("Joining spline points"), on one axis: their inner points, and rows 11 and 18 over them.
#![tactic(auto)]

ghost use Rattle.std.specs.Prelude.{true, List, ◌≡◌, ◌+◌, ◌-◌, ◌<◌, ℤ, pos, ◌*ℤ◌, length, get_or};
ghost use Rattle.grid.specs.Rows.{all_on_grid};
ghost use Rattle.spline_pieces.specs.Pieces.{piece_at, pieces, all_whole, piece_on_grid, all_pieces_on_grid};
ghost use Rattle.spline_pieces.specs.Standing.{Axis};

// Spline points on one axis, which 17 and 7 let pass: the parameters, the points and their tangents.
#[derive(Clone, Copy)]
pub struct AxisPoints<'a> {
    pub params: &'a [u16],
    pub ps: &'a [i32],
    pub ds: &'a [i32],
    pub ghost standing: { Axis params.now ps.now ds.now },
    pub ghost in_range: { all_on_grid ps.now ≡ true },
}

impl<'a> AxisPoints<'a> {
    // The width of piece i times tangent j.
    fn reach(self, i: usize, j: usize) -> i64
        requires i_in_bounds { (i + 1 < length self.params.now) × (j < length self.params.now) }
        ensures answer { result
            ≡ pos (get_or self.entry.params.now (i + 1) 0 - get_or self.entry.params.now i 0)
            *ℤ get_or self.entry.ds.now j (pos 0) }
    {
        signed::product(self.params[i + 1] - self.params[i], self.ds[j])
    }

    // The point of piece i that leaves its start.
    pub fn leaving(self, i: usize) -> i64
        requires i_in_bounds { i + 1 < length self.params.now }
        ensures answer { result
            ≡ (piece_at self.entry.params.now self.entry.ps.now self.entry.ds.now i).leaving }
    {
        i64::from(self.ps[i]) + self.reach(i, i) / 3
    }

    // The point of piece i that arrives at its end.
    pub fn arriving(self, i: usize) -> i64
        requires i_in_bounds { i + 1 < length self.params.now }
        ensures answer { result
            ≡ (piece_at self.entry.params.now self.entry.ps.now self.entry.ds.now i).arriving }
    {
        i64::from(self.ps[i + 1]) - self.reach(i, i + 1) / 3
    }

    // Whether piece i is whole, wherever its points are.
    #[tactic(auto, using(crate::proofs::ThirdLaws::third_tested), unfolding(crate::specs::Pieces::piece_at, crate::specs::Pieces::piece_of))]
    fn piece_whole(self, i: usize) -> bool
        requires i_in_bounds { i + 1 < length self.params.now }
        ensures answer { (ps : List ℤ) → result
            ≡ (piece_at self.entry.params.now ps self.entry.ds.now i).whole }
    {
        self.reach(i, i) % 3 == 0 && self.reach(i, i + 1) % 3 == 0
    }

    // Whether the points of piece i are on the grid; its ends are.
    #[tactic(auto, using(crate::proofs::GridLaws::ends_known))]
    fn piece_on_grid(self, i: usize) -> bool
        requires i_in_bounds { i + 1 < length self.params.now }
        ensures answer { result
            ≡ piece_on_grid (piece_at self.entry.params.now self.entry.ps.now self.entry.ds.now i) }
    {
        grid::on_grid_wide(self.leaving(i)) && grid::on_grid_wide(self.arriving(i))
    }

    // Row 11: every piece is whole, wherever its points are.
    #[tactic(auto, using(crate::proofs::PieceLaws::pieces_turn))]
    pub fn all_whole(self) -> bool
        ensures answer { (ps : List ℤ) → result
            ≡ all_whole (pieces self.entry.params.now ps self.entry.ds.now) }
    {
        for i in 0..self.params.len() - 1 {
            if !self.piece_whole(i) {
                return false;
            }
        }
        true
    }

    // Row 18: every piece is on the grid.
    #[tactic(auto, using(crate::proofs::PieceLaws::pieces_turn))]
    pub fn all_pieces_on_grid(self) -> bool
        ensures answer { result
            ≡ all_pieces_on_grid (pieces self.entry.params.now self.entry.ps.now self.entry.ds.now) }
    {
        for i in 0..self.params.len() - 1 {
            if !self.piece_on_grid(i) {
                return false;
            }
        }
        true
    }
}
