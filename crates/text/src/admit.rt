// Which texts are admitted.
ghost use Rattle.std.specs.Prelude.{◌≡◌};
ghost use Rattle.text.specs.Text.{admissible, all_admissible, text_ok};

// The most characters that a text has.
pub const TEXT_LIMIT: usize = 16_384;

fn is_admissible(x: u32) -> bool
    ensures { result ≡ admissible x }
{
    ((x <= 0xD7FF) | ((0xE000 <= x) & (x <= 0x10FFFF)))
        & !(((0x0B <= x) & (x <= 0x0D)) | (x == 0x85) | ((0x2028 <= x) & (x <= 0x2029)))
}

// Looks at every character: without an early exit the loop is vectorised. A closure for the test would make it, `all_small`, `all_flags` and
// `no_lf` one, and no plainer.
pub fn all_admissible(text: &[u32]) -> bool
    ensures { result ≡ all_admissible text.now }
{
    let mut all = true;
    for x in text {
        all &= is_admissible(*x);
    }
    all
}

// Whether the first `used` places of the buffer are a text.
pub fn is_text(buffer: &[u32], used: usize) -> bool
    ensures { result ≡ text_ok buffer.now used }
{
    if buffer.len() < used {
        return false;
    }
    if TEXT_LIMIT < used {
        return false;
    }
    all_admissible(&buffer[0..used])
}
