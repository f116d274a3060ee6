// Clamping a curve's ends ("Ends that are not clamped"): what it means stands in specs/. Here is the number that its rows are worked out in.
#![tactic(auto)]

// The number upper / lower.
#[derive(Clone, Copy, PartialEq, Eq, Debug)]
pub struct Share {
    pub upper: i64,
    pub lower: u64,
}
