// Numbers in hex, each followed by one byte of any other kind.
ghost use Rattle.std.specs.Prelude.{◌≡◌, ◌<◌, length, MatchOption};
ghost use Rattle.recording.specs.Decode.{digit_of, with_digit, number_at, numbers_at, after_numbers};

#[derive(Clone, Copy)]
pub struct Read {
    pub value: u64,
    pub next: usize,
}

// The value of a digit, where it is one.
#[tactic(auto, unfolding(crate::specs::Decode::digit_of))]
fn digit(b: u8) -> Option<u64>
    ensures { MatchOption result (digit_of b ≡ 16) (λ d. (d ≡ digit_of b) × (d < 16)) }
{
    match b {
        b'0'..=b'9' => Some(u64::from(b - b'0')),
        b'a'..=b'f' => Some(u64::from(b - b'a') + 10),
        _ => None,
    }
}

// With a digit more, as far as 64 bits hold it.
fn with_digit(value: u64, d: u64) -> u64
    ensures { result ≡ with_digit value d }
{
    value % (1 << 60) * 16 + d % 16
}

// The number at a place, and the place after the byte that ends it.
pub fn number(input: &[u8], at: usize) -> Read
    ensures { result ≡ number_at input.now at }
{
    let mut value = 0;
    for i in at..input.len() {
        let Some(d) = digit(input[i]) else {
            return Read { value, next: i + 1 };
        };
        value = with_digit(value, d);
    }
    Read {
        value,
        next: at.max(input.len()),
    }
}

// As many numbers as the run holds, and the place after the last.
pub fn numbers(input: &[u8], at: usize, run: &mut [u64]) -> usize
    ensures { (run.new ≡ numbers_at (length run.old) input.now at) × (result ≡ after_numbers (length run.old) input.now at) }
{
    let mut next = at;
    for n in run.iter_mut() {
        let read = number(input, next);
        *n = read.value;
        next = read.next;
    }
    next
}
