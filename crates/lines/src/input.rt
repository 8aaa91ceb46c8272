ghost use Rattle.std.specs.Prelude.{◌<◌, ◌≤◌, length, IfSome};

use std::io::Read;

// What the reader has, up to its end or a read that fails, or none where it would leave no room.
pub fn read_text<R: Read + Drop>(mut from: R, room: &mut [u8]) -> Option<&[u8]>
    ensures { IfSome result (λ text. length text.now < length room.old) }
{
    let mut length = 0;
    // A cursor: each turn moves it by what it read.
    while length < room.len() {
        match from.read(&mut room[length..]) {
            Ok(0) | Err(_) => return Some(&room[..length]),
            Ok(count) => length += count,
        }
    }
    None
}

// Whether a line is empty or a comment.
pub fn is_passed_over(line: &[u8]) -> bool {
    matches!(line, [] | [b'#', ..])
}
