ghost use Rattle.std.specs.Prelude.{◌≤◌, ◌<◌, length, IfSome};

fn digit(x: u8) -> Option<u32>
    ensures { IfSome result (λ value. value < 16) }
{
    match x {
        b'0'..=b'9' => Some(u32::from(x - b'0')),
        b'A'..=b'F' => Some(u32::from(x - b'A') + 10),
        _ => None,
    }
}

fn number(word: &[u8]) -> Option<u32> {
    word.iter().try_fold(0u32, |value, x| {
        value.checked_mul(16)?.checked_add(digit(*x)?)
    })
}

// The hexadecimal numbers of a text, in upper case and with spaces between them, at the front of `out`: none where a word is no number, or has no room.
pub fn read_numbers<'a>(text: &[u8], out: &'a mut [u32]) -> Option<&'a [u32]>
    ensures { IfSome result (λ numbers. length numbers.now ≤ length out.old) }
{
    let mut count = 0;
    for word in text.split(|x| *x == b' ').filter(|word| !word.is_empty()) {
        *out.get_mut(count)? = number(word)?;
        count += 1;
    }
    Some(&out[..count])
}
