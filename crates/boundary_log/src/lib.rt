// What C and Rust link to list a log. It is no part of `boundary_filter`, so that in each of the
// archives a filter call has one caller, into which it is compiled.
#![tactic(auto)]

ghost use Rattle.std.specs.Prelude.{◌≡◌};
ghost use Rattle.listing.specs.Listing.{listed};

// Replays a log and writes its listing; below the room that it asks for it writes nothing and gives
// that room.
pub fn track_list(log: &[u8], out: &mut [u8]) -> usize
    ensures { (result, out.new) ≡ listed log.now out.old }
{
    listing::list(log, out)
}
