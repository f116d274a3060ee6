// Judges one field of bytes: its tag, then its length, then its contents; or tells the first fault with its place.
#![tactic(auto)]

ghost use Rattle.std.specs.Prelude.{◌≡◌, ◌≤◌, IfOk};
ghost use Rattle.taken_field.specs.Taking.{length_ok, field_at};
ghost use Rattle.taken_field.specs.declared.Failure.TheVariants.{Broken, Refused};

use fields::Entry;
use refusal::Refusal;

// What a field must be: its tag, its least and largest length, and the width of an entry.
#[derive(Clone, Copy, PartialEq, Eq, Debug)]
pub struct Rule {
    pub tag: u8,
    pub least: usize,
    pub most: usize,
    pub width: usize,
}

// Where bytes break: the refusal and the place. The place is the input's length, a tag's, that of a length's first byte, or of a byte left over.
#[derive(Clone, Copy, PartialEq, Eq, Debug)]
pub struct Break {
    pub refusal: Refusal,
    pub place: usize,
}

// Why a file is not read: its bytes break, or what stands in them is refused.
#[derive(Clone, Copy, PartialEq, Eq, Debug)]
pub enum Failure {
    Broken(Break),
    Refused(Refusal),
}

impl From<Break> for Failure {
    ghost from_gives = { λ fault failure. failure ≡ Broken fault };

    fn from(fault: Break) -> Failure {
        Failure::Broken(fault)
    }
}

impl From<Refusal> for Failure {
    ghost from_gives = { λ refusal failure. failure ≡ Refused refusal };

    fn from(refusal: Refusal) -> Failure {
        Failure::Refused(refusal)
    }
}

// A length within the rule, of whole entries.
#[tactic(auto, unfolding(crate::specs::Taking::length_ok))]
pub fn length_ok(rule: Rule, len: usize) -> bool
    ensures answer { result ≡ length_ok rule len }
{
    rule.least <= len && len <= rule.most && rule.width != 0 && len % rule.width == 0
}

// The length of the contents of the field that begins at `at`. Judges its tag, then its length, then its contents.
// The bytes and a place, and no reader that holds both: the layouts and their laws speak of places in the whole input.
#[tactic(auto, unfolding(crate::specs::Taking::field_at, crate::specs::Taking::length_ok))]
pub fn take_field(bytes: &[u8], at: usize, rule: Rule) -> Result<usize, Break>
    ensures answer { result ≡ field_at rule bytes.now at }
    ensures most { IfOk result (λ len. len ≤ rule.most) }
{
    let len = bytes.len();
    let ended = Err(Break {
        refusal: Refusal::Ended,
        place: len,
    });
    if len <= at {
        return ended;
    }
    let tag = bytes[at];
    if tag != rule.tag {
        return Err(Break {
            refusal: Refusal::Tag,
            place: at,
        });
    }
    if len < at + grid::HEAD_BYTES {
        return ended;
    }
    let size = usize::from(u16::get(bytes, at + 1));
    if !length_ok(rule, size) {
        return Err(Break {
            refusal: Refusal::Length,
            place: at + 1,
        });
    }
    if len < at + grid::HEAD_BYTES + size {
        return ended;
    }
    Ok(size)
}
