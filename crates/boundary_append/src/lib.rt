// What C and Rust link to append a record to a log. It is a crate of its own, so that a box that only
// writes logs links no filter.
#![tactic(auto)]

ghost use Rattle.std.specs.Prelude.{◌≡◌, get_or};
ghost use Rattle.writer.specs.Append.{appended};
ghost use Rattle.boundary_append.specs.Lent.{lent, tag_of};

// A word as a tag; one that is no byte is as unknown as 0.
fn tag_of(word: u32) -> u8
    ensures { result ≡ tag_of word }
{
    u8::try_from(word).unwrap_or(0)
}

// Appends a record behind the `used[0]` bytes that are used, and raises that; or gives a refusal and
// writes nothing.
pub fn track_append(buf: &mut [u8], used: &mut [usize; 1], tag: u32, payload: &[u8]) -> u32
    ensures { (result, buf.new, used.new) ≡ lent (appended buf.old (get_or used.old 0 0) tag payload.now) used.old }
{
    match writer::append(buf, used[0], tag_of(tag), payload) {
        Ok(length) => {
            used[0] = length;
            0
        }
        Err(refusal) => u32::from(refusal),
    }
}
