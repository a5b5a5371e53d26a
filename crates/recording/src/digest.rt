// The digest of a recorded answer: 64 bits, a word at a time.
ghost use Rattle.std.specs.Prelude.{◌≡◌};
ghost use Rattle.recording.specs.Digest.{digest_word, digest_of};

pub const START: u64 = 0xcbf29ce484222325;

// 2^40 + 435.
const PRIME: u64 = 0x100000001b3;

// A word more: xored in, multiplied, and the upper half xored onto the lower.
#[tactic(auto, unfolding(crate::specs::Digest::digest_word))]
pub fn word(h: u64, w: u64) -> u64
    ensures { result ≡ digest_word h w }
{
    let x = (h ^ w).wrapping_mul(PRIME);
    x ^ (x >> 32)
}

// The digest with each byte of a run more, as a word.
pub fn bytes(h: u64, run: &[u8]) -> u64
    ensures { result ≡ digest_of h run.now }
{
    run.iter().fold(h, |d, b| word(d, u64::from(*b)))
}

// The digest with each word of a run more.
pub fn words(h: u64, run: &[u64]) -> u64
    ensures { result ≡ digest_of h run.now }
{
    run.iter().fold(h, |d, w| word(d, *w))
}
