// Numbers of four bytes, high first.
ghost use Rattle.std.specs.Prelude.{◌≡◌, ◌+◌, ◌≤◌, length};
ghost use Rattle.frame.specs.Numbers.{number_in, position_in};

use text::{Col, Position, Row};
use utf8::ByteOffset;

#[tactic(auto, unfolding(crate::specs::Numbers::number_in))]
pub fn number_at(bytes: &[u8], at: ByteOffset) -> u32
    requires { at.0 + 4 ≤ length bytes.now }
    ensures { result ≡ number_in bytes.now at.0 }
{
    let start = at.0;
    u32::from_be_bytes([
        bytes[start],
        bytes[start + 1],
        bytes[start + 2],
        bytes[start + 3],
    ])
}

pub fn position_at(bytes: &[u8], at: ByteOffset) -> Position
    requires { at.0 + 8 ≤ length bytes.now }
    ensures { result ≡ position_in bytes.now at.0 }
{
    let start = at.0;
    let row = number_at(bytes, ByteOffset(start));
    let col = number_at(bytes, ByteOffset(start + 4));
    Position {
        row: Row(row),
        col: Col(col),
    }
}
