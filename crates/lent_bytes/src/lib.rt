// Bytes of lent memory, for all that reads or writes a log: a byte, a float and a part are read from
// any place, and bytes are written from any place on. Where a buffer ends, writing ends.
#![tactic(auto)]

ghost use Rattle.std.specs.Prelude.{◌≡◌, [], ◌∷◌, get_or};
ghost use Rattle.lent_bytes.specs.Read.{float_at, part_at};
ghost use Rattle.lent_bytes.specs.Wrote.{Wrote};

// The byte at a place; 0 beyond the end.
pub fn byte_at(bytes: &[u8], at: usize) -> u8
    ensures { result ≡ get_or bytes.now at 0 }
{
    bytes.get(at).copied().unwrap_or(0)
}

// The f32 whose four bytes, low byte first, start at a place.
pub fn float_at(bytes: &[u8], at: u8) -> f32
    ensures { result ≡ float_at bytes.now at }
{
    let first = at as usize;
    let read = [
        byte_at(bytes, first),
        byte_at(bytes, first + 1),
        byte_at(bytes, first + 2),
        byte_at(bytes, first + 3),
    ];
    float::float_of(u32::from_le_bytes(read))
}

// The part of a length from a place on, or what there is of it.
pub fn part(bytes: &[u8], at: usize, length: usize) -> &[u8]
    ensures { result.now ≡ part_at bytes.now at length }
{
    let rest = &bytes[at.min(bytes.len())..];
    &rest[..length.min(rest.len())]
}

// Writes one byte and answers the place behind it.
pub fn put(out: &mut [u8], at: usize, byte: u8) -> usize
    ensures { Wrote out.old at (byte ∷ []) out.new result }
{
    if at < out.len() {
        out[at] = byte;
        at + 1
    } else {
        out.len()
    }
}

// Writes the bytes of a text and answers the place behind them.
pub fn put_text(out: &mut [u8], at: usize, text: &[u8]) -> usize
    ensures { Wrote out.old at text.now out.new result }
{
    let mut behind = at.min(out.len());
    for byte in text {
        behind = put(out, behind, *byte);
    }
    behind
}
