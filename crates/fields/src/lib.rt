// Numbers in bytes, low byte first: one at a place, and lists of them from a place on.
#![tactic(auto)]

ghost use Rattle.std.specs.Prelude.{◌≡◌, ◌+◌, ◌*◌, ◌≤◌, ◌<◌, List, ℕ, length};
ghost use Rattle.fields.specs.Bytes.{each, field_head};
ghost use Rattle.fields.specs.Places.{u16_at, i32_at, entries_at, put_at};
ghost use Rattle.lent.specs.Lent.{over};

// A number as the contents of a field hold it: so many bytes, whose lowest stands at a place.
pub trait Entry: Copy {
    ghost WIDTH: { ℕ };

    ghost read: { List ℕ → ℕ → Self };

    ghost parts: { Self → List ℕ };

    const WIDTH: usize;

    fn get(bytes: &[u8], at: usize) -> Self
        requires { at + WIDTH ≤ length bytes.now }
        ensures answer { result ≡ read bytes.now at };

    fn put(self, out: &mut [u8], at: usize)
        requires { at + WIDTH ≤ length out.old }
        ensures result { out.new ≡ put_at out.old at (parts self) };

    ghost wide: { (x : Self) → length (parts x) ≡ WIDTH };
}

// A knot.
impl Entry for u16 {
    ghost use Rattle.std.specs.Prelude.{refl};
    ghost use Rattle.fields.specs.Bytes.{u16_bytes};

    ghost WIDTH = { 2 };

    ghost read = { u16_at };

    ghost parts = { u16_bytes };

    ghost wide = { λ x. refl };

    const WIDTH: usize = 2;

    fn get(bytes: &[u8], at: usize) -> u16 {
        u16::from_le_bytes([bytes[at], bytes[at + 1]])
    }

    fn put(self, out: &mut [u8], at: usize) {
        out[at..at + 2].copy_from_slice(&self.to_le_bytes());
    }
}

// A coordinate.
impl Entry for i32 {
    ghost use Rattle.std.specs.Prelude.{refl};
    ghost use Rattle.fields.specs.Bytes.{i32_bytes};

    ghost WIDTH = { 4 };

    ghost read = { i32_at };

    ghost parts = { i32_bytes };

    ghost wide = { λ x. refl };

    const WIDTH: usize = 4;

    fn get(bytes: &[u8], at: usize) -> i32 {
        i32::from_le_bytes([bytes[at], bytes[at + 1], bytes[at + 2], bytes[at + 3]])
    }

    fn put(self, out: &mut [u8], at: usize) {
        out[at..at + 4].copy_from_slice(&self.to_le_bytes());
    }
}

// Puts a field's tag and the two bytes of its length from `at` on.
pub fn put_head(out: &mut [u8], at: usize, tag: u8, len: usize)
    requires { at + length (field_head tag len) ≤ length out.old }
    ensures result { out.new ≡ put_at out.old at (field_head tag len) }
{
    let bytes = len.to_le_bytes();
    out[at..at + 3].copy_from_slice(&[tag, bytes[0], bytes[1]]);
}

// Puts the bytes of every entry from `at` on.
pub fn put_entries<E: Entry>(entries: &[E], out: &mut [u8], at: usize)
    requires { at + E.WIDTH * length entries.now ≤ length out.old }
    ensures result { out.new ≡ put_at out.old at (each E.parts entries.now) }
{
    for (i, entry) in entries.iter().enumerate() {
        entry.put(out, at + E::WIDTH * i);
    }
}

// Reads `count` entries from `at` on into the front of `out`.
pub fn read_entries<E: Entry>(bytes: &[u8], at: usize, count: usize, out: &mut [E])
    requires { (at + E.WIDTH * count ≤ length bytes.now) × (count ≤ length out.old) }
    ensures result { out.new ≡ over (entries_at (E.read bytes.now) E.WIDTH at count) out.old }
{
    for (i, place) in out[..count].iter_mut().enumerate() {
        *place = E::get(bytes, at + E::WIDTH * i);
    }
}
