// Numbers and positions as bytes, to a slice that has room for them.
ghost use Rattle.std.specs.Prelude.{◌++◌, ◌≡◌, ◌+◌, ◌%◌, ◌≤◌, length};
ghost use Rattle.std.proofs.Math.Seq.{paste};
ghost use Rattle.frame.specs.Numbers.{number, position};

use text::Position;
use utf8::ByteOffset;

pub fn put_number(bytes: &mut [u8], at: ByteOffset, n: u32)
    requires { at.0 + 4 ≤ length bytes.old }
    ensures { bytes.new ≡ paste bytes.old at.0 (number n) 4 }
{
    let start = at.0;
    bytes[start..start + 4].copy_from_slice(&n.to_be_bytes());
}

// Two numbers, one behind the other.
pub fn put_pair(bytes: &mut [u8], at: ByteOffset, a: u32, b: u32)
    requires { at.0 + 8 ≤ length bytes.old }
    ensures { bytes.new ≡ paste bytes.old at.0 (number a ++ number b) 8 }
{
    let start = at.0;
    put_number(bytes, at, a);
    put_number(bytes, ByteOffset(start + 4), b);
}

pub fn put_position(bytes: &mut [u8], at: ByteOffset, pos: Position)
    requires { at.0 + 8 ≤ length bytes.old }
    ensures { bytes.new ≡ paste bytes.old at.0 (position pos) 8 }
{
    let row = pos.row.0;
    let col = pos.col.0;
    put_pair(bytes, at, row, col);
}
