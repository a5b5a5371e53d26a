// The digest of what a call leaves: maps, settings and tables.
ghost use Rattle.std.specs.Prelude.{◌≡◌};
ghost use Rattle.playback.specs.Left.{permissions_of, maps_of, left_of};

use crate::buffers::Buffers;
use abi::place;
use recording::digest;

fn permissions(h: u64, buffers: &Buffers) -> u64
    ensures { result ≡ permissions_of h buffers.now }
{
    let two = digest::bytes(digest::bytes(h, &buffers.read), &buffers.write);
    digest::bytes(digest::bytes(two, &buffers.kernel), &buffers.user)
}

#[tactic(auto, unfolding(crate::specs::Left::maps_of))]
fn maps(buffers: &Buffers) -> u64
    ensures { result ≡ maps_of buffers.now }
{
    let marks = digest::bytes(
        digest::bytes(digest::START, &buffers.private),
        &buffers.shared,
    );
    if buffers.state[place::TRACKED] == 1 {
        permissions(marks, buffers)
    } else {
        marks
    }
}

// The digest of the maps, the settings and the tables.
pub fn left(buffers: &Buffers) -> u64
    ensures { result ≡ left_of buffers.now }
{
    let enabled = digest::word(maps(buffers), buffers.state[place::ENABLED]);
    let first = digest::word(enabled, buffers.state[place::DEFAULT0]);
    let settings = digest::word(first, buffers.state[place::DEFAULT1]);
    digest::words(settings, &buffers.tables)
}
