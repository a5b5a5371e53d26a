// What is lent to the protector's calls, and a recorded call.
ghost use Rattle.std.specs.Prelude.{◌≡◌, ◌≤◌};
ghost use Rattle.playback.specs.Buffers.{map_bytes, bytes_if, bytes_in, no_buffers};

use abi::{PAGES_WORDS, STATE_WORDS, TABLES_WORDS, place};
use protector_state::Reply;

// Layouts end at page 512: the bytes of a map.
pub const MAP_BYTES: usize = 64;

// The longest output of a query, and a byte of it that no call wrote.
pub const OUT_BYTES: usize = 520;

pub const UNWRITTEN: u8 = 0xa5;

// A call is answered so often at most.
pub const ANSWERS: u64 = 8192;

// The codes of a failed operation are below it.
pub const CODES: u64 = 65536;

// The runs of docs/ABI.md, the last reply, and the digest of what the call under way asked for.
#[derive(Clone, Copy)]
pub struct Buffers {
    pub private: [u8; MAP_BYTES],
    pub shared: [u8; MAP_BYTES],
    pub read: [u8; MAP_BYTES],
    pub write: [u8; MAP_BYTES],
    pub kernel: [u8; MAP_BYTES],
    pub user: [u8; MAP_BYTES],
    pub state: [u64; STATE_WORDS],
    pub pages: [u64; PAGES_WORDS as usize],
    pub tables: [u64; TABLES_WORDS as usize],
    pub reply: Reply,
    pub asked: u64,
}

// A kind and its arguments; the operation that fails (0: none), its code and the pages processed; how many runs follow.
#[derive(Clone, Copy)]
pub struct Call {
    pub kind: u64,
    pub a: u64,
    pub b: u64,
    pub c: u64,
    pub d: u64,
    pub e: u64,
    pub place: u64,
    pub code: u64,
    pub processed: u64,
    pub runs: u64,
}

// How many bytes of each permission map are lent: all where permissions are tracked, else none.
pub fn bytes_if(tracked: u64) -> usize
    ensures { (result ≡ bytes_if tracked) × (result ≤ map_bytes) }
{
    if tracked == 1 { MAP_BYTES } else { 0 }
}

// The same by the state block.
pub fn bytes_in(buffers: &Buffers) -> usize
    ensures { (result ≡ bytes_in buffers.now) × (result ≤ map_bytes) }
{
    bytes_if(buffers.state[place::TRACKED])
}

// The buffers before the first build.
pub fn nothing() -> Buffers
    ensures { result ≡ no_buffers }
{
    Buffers {
        private: [0; MAP_BYTES],
        shared: [0; MAP_BYTES],
        read: [0; MAP_BYTES],
        write: [0; MAP_BYTES],
        kernel: [0; MAP_BYTES],
        user: [0; MAP_BYTES],
        state: [0; STATE_WORDS],
        pages: [0; PAGES_WORDS as usize],
        tables: [0; TABLES_WORDS as usize],
        reply: protector_state::finished(0, 0, 0, 0),
        asked: 0,
    }
}
