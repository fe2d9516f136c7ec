// Made from crates/boundary_append by tools/boundary.
// What C and Rust link of it: its functions under their own names. Each takes and says what its function does.
#![tactic(auto)]

ghost use Rattle.std.specs.Prelude.{◌≡◌, get_or};
ghost use Rattle.writer.specs.Append.{appended};
ghost use Rattle.boundary_append.specs.Lent.{lent};

// Appends a record behind the `used[0]` bytes that are used, and raises that; or gives a refusal and
// writes nothing.
#[unsafe(no_mangle)]
pub extern "C" fn track_append(
    buf: &mut [u8],
    used: &mut [usize; 1],
    tag: u32,
    payload: &[u8],
) -> u32
    ensures { (result, buf.new, used.new) ≡ lent (appended buf.old (get_or used.old 0 0) tag payload.now) used.old }
{
    boundary_append::track_append(buf, used, tag, payload)
}
