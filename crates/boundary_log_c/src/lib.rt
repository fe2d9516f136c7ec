// Made from crates/boundary_log by tools/boundary.
// What C and Rust link of it: its functions under their own names. Each takes and says what its function does.
#![tactic(auto)]

ghost use Rattle.std.specs.Prelude.{◌≡◌};
ghost use Rattle.listing.specs.Listing.{listed};

// Replays a log and writes its listing; below the room that it asks for it writes nothing and gives
// that room.
#[unsafe(no_mangle)]
pub extern "C" fn track_list(log: &[u8], out: &mut [u8]) -> usize
    ensures { (result, out.new) ≡ listed log.now out.old }
{
    boundary_log::track_list(log, out)
}
