// A selection of one of the three kinds.
ghost use Rattle.std.specs.Prelude.{cond, ◌≡◌, eqb};
ghost use Rattle.select.specs.Selections.{head_of, anchor_of, extended, row_span, row_bounds, char_span, line_span, block_span};
ghost use Rattle.select.specs.Answers.{paper_row_span};

use crate::{RowBounds, RowSpan, Selection};
use text::{Col, Position, Row};

// The first column that is covered of a row from the start's on.
fn first_col(start: Position, row: Row) -> Col
    ensures { result.0 ≡ cond (eqb row.0 start.row.0) start.col.0 0 }
{
    if row == start.row { start.col } else { Col(0) }
}

fn char_span(start: Position, end: Position, row: Row) -> RowSpan
    ensures { paper_row_span result ≡ char_span start end row.0 }
{
    if (row < start.row) | (end.row < row) {
        return RowSpan::Outside;
    }
    let lo = first_col(start, row);
    if row == end.row {
        RowSpan::Closed { lo, hi: end.col }
    } else {
        RowSpan::Open { lo }
    }
}

fn line_span(top: Row, bottom: Row, row: Row) -> RowSpan
    ensures { paper_row_span result ≡ line_span top.0 bottom.0 row.0 }
{
    if (row < top) | (bottom < row) {
        RowSpan::Outside
    } else {
        RowSpan::Open { lo: Col(0) }
    }
}

fn block_span(top: Row, bottom: Row, left: Col, right: Col, row: Row) -> RowSpan
    ensures { paper_row_span result ≡ block_span top.0 bottom.0 left.0 right.0 row.0 }
{
    if (row < top) | (bottom < row) {
        RowSpan::Outside
    } else {
        RowSpan::Closed {
            lo: left,
            hi: right,
        }
    }
}

impl Selection {
    pub fn head(self) -> Position
        ensures { result ≡ head_of self }
    {
        match self {
            Selection::Char { head, .. } => head,
            Selection::Line { head_row, .. } => Position {
                row: head_row,
                col: Col(0),
            },
            Selection::Block { head, .. } => head,
        }
    }

    pub fn anchor(self) -> Position
        ensures { result ≡ anchor_of self }
    {
        match self {
            Selection::Char { anchor, .. } => anchor,
            Selection::Line { anchor_row, .. } => Position {
                row: anchor_row,
                col: Col(0),
            },
            Selection::Block { anchor, .. } => anchor,
        }
    }

    // The selection with its head at the position; a Line takes its row alone.
    pub fn extend_to(self, pos: Position) -> Selection
        ensures { result ≡ extended self pos }
    {
        match self {
            Selection::Char { anchor, .. } => Selection::Char { anchor, head: pos },
            Selection::Line { anchor_row, .. } => Selection::Line {
                anchor_row,
                head_row: pos.row,
            },
            Selection::Block { anchor, .. } => Selection::Block { anchor, head: pos },
        }
    }

    // What columns of a row it covers.
    pub fn row_span(self, row: Row) -> RowSpan
        ensures { paper_row_span result ≡ row_span self row.0 }
    {
        match self {
            Selection::Char { anchor, head } => char_span(anchor.min(head), anchor.max(head), row),
            Selection::Line {
                anchor_row,
                head_row,
            } => line_span(anchor_row.min(head_row), anchor_row.max(head_row), row),
            Selection::Block { anchor, head } => block_span(
                anchor.row.min(head.row),
                anchor.row.max(head.row),
                anchor.col.min(head.col),
                anchor.col.max(head.col),
                row,
            ),
        }
    }

    pub fn row_bounds(self) -> RowBounds
        ensures { result ≡ row_bounds self }
    {
        match self {
            Selection::Char { anchor, head } => {
                let start = anchor.min(head);
                let end = anchor.max(head);
                RowBounds {
                    top: start.row,
                    bottom: end.row,
                }
            }
            Selection::Line {
                anchor_row,
                head_row,
            } => RowBounds {
                top: anchor_row.min(head_row),
                bottom: anchor_row.max(head_row),
            },
            Selection::Block { anchor, head } => RowBounds {
                top: anchor.row.min(head.row),
                bottom: anchor.row.max(head.row),
            },
        }
    }
}
