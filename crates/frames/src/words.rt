// The words that lines are made of.
ghost use Rattle.std.specs.Prelude.{◌≤◌, ◌<◌, IfSome};

// The most times that a word is repeated, and a number that is not to get another digit.
const TIMES: usize = 100_000;

const FULL: usize = 9_998;

// A byte by its number, or what stands there, so many times over.
#[derive(Clone, Copy)]
pub(crate) enum Word<'a> {
    Octet(u8),
    Repeated(&'a [u8], usize),
}

fn decimal(digits: &[u8]) -> usize
    ensures { result ≤ 100_000 }
{
    let mut value = 0;
    for digit in digits {
        if FULL <= value {
            return TIMES;
        }
        value = value * 10 + usize::from(*digit % 16);
    }
    value
}

fn digit(x: u8) -> Option<u8>
    ensures { IfSome result (λ value. value < 16) }
{
    match x {
        b'0'..=b'9' => Some(x - b'0'),
        b'a'..=b'f' => Some(x - b'a' + 10),
        _ => None,
    }
}

// What is no digit counts as 0.
fn octet(high: u8, low: u8) -> u8 {
    digit(high).unwrap_or(0) * 16 + digit(low).unwrap_or(0)
}

pub(crate) fn word_of(word: &[u8]) -> Word<'_> {
    if let [b'~', high, low, ..] = word {
        return Word::Octet(octet(*high, *low));
    }
    match word.iter().position(|x| *x == b'*') {
        Some(at) => Word::Repeated(&word[..at], decimal(&word[at + 1..])),
        None => Word::Repeated(word, 1),
    }
}
