// The cursor and positions in a view's text.
ghost use Rattle.std.specs.Prelude.{◌≡◌};
ghost use Rattle.text.specs.Answers.{paper_clamped};
ghost use Rattle.text.specs.Calls.{clamped_in};
ghost use Rattle.view.specs.Answers.{paper_cursor_set};
ghost use Rattle.view.specs.Calls.{cursor_set_in};

use edit::View;
use rows::clamp;
use text::{Position, is_text};
use utf8::BadText;

// The view with its cursor at the position, clamped.
pub fn set_cursor(buffer: &[u32], view: View, pos: Position) -> Result<View, BadText>
    ensures { paper_cursor_set result ≡ cursor_set_in buffer.now view pos }
{
    let used = view.used;
    if !is_text(buffer, used) {
        return Err(BadText);
    }
    let cursor = clamp(&buffer[0..used], pos);
    Ok(view.renew(used, cursor, view.changes))
}

pub fn clamp_position(buffer: &[u32], view: View, pos: Position) -> Result<Position, BadText>
    ensures { paper_clamped result ≡ clamped_in buffer.now view.used pos }
{
    let used = view.used;
    rows::clamp_position(buffer, used, pos)
}
