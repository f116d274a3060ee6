// Reads the structure of bytes, field by field from the left: sound, or the leftmost fault with its place.
#![tactic(auto)]

ghost use Rattle.std.specs.Prelude.{◌≡◌, ◌≤◌, IfOk};
ghost use Rattle.grid.specs.Limits.{knot_bytes_most, coordinate_bytes_most};
ghost use Rattle.layout.specs.Judging.{record_layout, whole_record};

use refusal::Refusal;
use taken_field::{Break, Rule};

// What a record's fields must be.
const DEGREE_RULE: Rule = Rule {
    tag: format::DEGREE_TAG,
    least: 1,
    most: 1,
    width: 1,
};

const KNOTS_RULE: Rule = Rule {
    tag: format::KNOTS_TAG,
    least: 0,
    most: grid::KNOT_BYTES_MOST,
    width: 2,
};

const X_RULE: Rule = Rule {
    tag: format::X_TAG,
    least: 0,
    most: grid::COORDINATE_BYTES_MOST,
    width: 4,
};

const Y_RULE: Rule = Rule {
    tag: format::Y_TAG,
    ..X_RULE
};

// The lengths of a record's fields of knots, x and y.
#[derive(Clone, Copy, PartialEq, Eq, Debug)]
pub struct Layout {
    pub knots: usize,
    pub xs: usize,
    pub ys: usize,
}

// The record at the front of bytes, whatever follows it.
#[tactic(auto, unfolding(crate::specs::Judging::record_layout))]
pub fn record_layout(bytes: &[u8]) -> Result<Layout, Break>
    ensures answer { result ≡ record_layout bytes.now }
    ensures most { IfOk result (λ l. (l.knots ≤ knot_bytes_most) × (l.xs ≤ coordinate_bytes_most) × (l.ys ≤ coordinate_bytes_most)) }
{
    taken_field::take_field(bytes, 0, DEGREE_RULE)?;
    let knots = taken_field::take_field(bytes, format::KNOTS_FIELD, KNOTS_RULE)?;
    let xs = taken_field::take_field(bytes, format::BEFORE_KNOTS + knots, X_RULE)?;
    let ys = taken_field::take_field(bytes, format::BEFORE_X + knots + xs, Y_RULE)?;
    Ok(Layout { knots, xs, ys })
}

// Bytes that are to be one record and nothing else.
#[tactic(auto, unfolding(crate::specs::Judging::whole_record))]
pub fn whole_record(bytes: &[u8]) -> Result<Layout, Break>
    ensures answer { result ≡ whole_record bytes.now }
{
    let layout = record_layout(bytes)?;
    let end = format::BEFORE_Y + layout.knots + layout.xs + layout.ys;
    if bytes.len() <= end {
        return Ok(layout);
    }
    Err(Break {
        refusal: Refusal::LeftOver,
        place: end,
    })
}
