// Answers as records, of the calls whose answers `plain` does not know.
#![tactic(auto)]

ghost use Rattle.std.specs.Prelude.{◌≡◌};
ghost use Rattle.asked.specs.Calls.{paper_mark, paper_edit};
ghost use Rattle.promise.specs.Paper.{done};
ghost use Rattle.shift.specs.Answers.{followed, paper_shifted};
ghost use Rattle.view.specs.Answers.{paper_cursor_set};
ghost use Rattle.script.specs.Calls.{paper_ran};
ghost use Rattle.plain.specs.Told.{told_count, told_yes, told_view};
ghost use Rattle.told.specs.Shifts.{told_shifted, told_sel_shifted};
ghost use Rattle.told.specs.Lines.{told_mark, told_read};
ghost use Rattle.edit.specs.Call.{paper};

use asked::EditRead;
use edit::{Refusal, View};
use hexline::BadFrame;
use plain::{
    Count, EditLine, Found, Said, SelFound, Viewed, counted, found_of, found_sel, line_read,
    no_line, no_sel, not_counted, not_found,
};
use select::Sel;
use text::Position;
use utf8::{BadText, NoRoom};

pub fn told_ran(ran: Result<usize, NoRoom>) -> Count
    ensures { result ≡ told_count (paper_ran ran) }
{
    match ran {
        Ok(n) => counted(n),
        Err(NoRoom) => not_counted(Refusal::NoRoom),
    }
}

pub fn told_shifted(shifted: Result<Option<Position>, Refusal>) -> Found
    ensures { result ≡ told_shifted (paper_shifted shifted) }
{
    match shifted {
        Ok(found) => found_of(found),
        Err(why) => not_found(why.number()),
    }
}

// A selection, where there is one.
fn found_sel_of(found: Option<Sel>) -> SelFound
    ensures { result ≡ told_sel_shifted (done (followed found)) }
{
    match found {
        Some(sel) => found_sel(sel),
        None => no_sel(0),
    }
}

pub fn told_sel_shifted(shifted: Result<Option<Sel>, Refusal>) -> SelFound
    ensures { result ≡ told_sel_shifted (paper_shifted shifted) }
{
    match shifted {
        Ok(found) => found_sel_of(found),
        Err(why) => no_sel(why.number()),
    }
}

pub fn told_undoable(can: Result<bool, Refusal>) -> Said
    ensures { result ≡ told_yes (paper can) }
{
    match can {
        Ok(yes) => Said { refusal: 0, yes },
        Err(why) => Said {
            refusal: why.number(),
            yes: false,
        },
    }
}

// What is told of the view, whose cursor was to be set.
pub fn told_cursor(view: View, set: Result<View, BadText>) -> Viewed
    ensures { result ≡ told_view view (paper_cursor_set set) }
{
    match set {
        Ok(after) => Viewed {
            refusal: 0,
            view: after,
        },
        Err(BadText) => Viewed {
            refusal: Refusal::BadText.number(),
            view,
        },
    }
}

pub fn told_mark_read(read: Result<Sel, BadFrame>) -> SelFound
    ensures { result ≡ told_mark (paper_mark read) }
{
    match read {
        Ok(mark) => found_sel(mark),
        Err(BadFrame) => no_sel(Refusal::BadFrame.number()),
    }
}

pub fn told_edit_read(read: Result<EditRead, Refusal>) -> EditLine
    ensures { result ≡ told_read (paper_edit read) }
{
    match read {
        Ok(found) => line_read(found.edit, found.payload, found.first, found.second),
        Err(why) => no_line(why),
    }
}
