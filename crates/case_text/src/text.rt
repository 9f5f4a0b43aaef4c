// A line's words, and the numbers among them.
ghost use Rattle.std.specs.Prelude.{◌≡◌, ◌≢◌, ℕ, ◌≤◌, ◌<◌, length, get_or};

// From here on a further digit might not fit 64 bits.
const LARGEST_FRONT: u64 = 1000000000000000000;

// How far the least amount is below zero.
const LARGEST_NEGATIVE: u64 = rules::M + 1;

// What stands between a line's first and last space, as a number; and what stands behind the last, as a number, and as an amount in two's complement.
#[derive(Clone, Copy)]
pub struct Numbers {
    pub first: Option<u64>,
    pub second: Option<u64>,
    pub amount: Option<u64>,
}

// Where the words before the last one end, and where the last one begins.
#[derive(Clone, Copy)]
pub struct Pair {
    pub end: usize,
    pub last: usize,
}

// Where a byte first stands in a part of a list, or the part's end where it does not.
pub fn find(list: &[u8], from: usize, end: usize, byte: u8) -> usize
    requires { (from ≤ end) × (end ≤ length list.now) }
    ensures within { (from ≤ result) × (result ≤ end) }
    ensures before { (k : ℕ) → from ≤ k → k < result → get_or list.now k 0 ≢ byte }
    ensures there { result < end → get_or list.now result 0 ≡ byte }
{
    for at in from..end {
        if list[at] == byte {
            return at;
        }
    }
    end
}

fn read_number(word: &[u8]) -> Option<u64> {
    if word.is_empty() {
        return None;
    }
    let mut value = 0;
    for character in word {
        if !character.is_ascii_digit() || LARGEST_FRONT <= value {
            return None;
        }
        value = value * 10 + u64::from(*character - b'0');
    }
    Some(value)
}

fn read_amount(word: &[u8]) -> Option<u64> {
    let Some((b'-', size)) = word.split_first() else {
        return read_number(word).filter(|size| *size < LARGEST_NEGATIVE);
    };
    let size = read_number(size).filter(|size| *size <= LARGEST_NEGATIVE)?;
    Some(size.wrapping_neg())
}

pub fn read_numbers(first: &[u8], second: &[u8]) -> Numbers {
    Numbers {
        first: read_number(first),
        second: read_number(second),
        amount: read_amount(second),
    }
}

// A name may have spaces in it, so the last word is looked for from the end.
pub fn split(words: &[u8]) -> Pair
    ensures { (result.end ≤ result.last) × (result.last ≤ length words.now) }
{
    for end in (0..words.len()).rev() {
        if words[end] == b' ' {
            return Pair { end, last: end + 1 };
        }
    }
    Pair { end: 0, last: 0 }
}
