// A selection with a fixed end and a moving one.
ghost use Rattle.std.specs.Prelude.{◌≡◌};
ghost use Rattle.select.specs.Sels.{sel, is_caret, start, end, overlaps};

use crate::Sel;
use text::Position;

impl Sel {
    pub fn new(anchor: Position, head: Position) -> Sel
        ensures { result ≡ sel anchor head }
    {
        Sel { anchor, head }
    }

    pub fn caret(pos: Position) -> Sel
        ensures { result ≡ sel pos pos }
    {
        Sel {
            anchor: pos,
            head: pos,
        }
    }

    pub fn is_caret(self) -> bool
        ensures { result ≡ is_caret self }
    {
        self.anchor == self.head
    }

    pub fn start(self) -> Position
        ensures { result ≡ start self }
    {
        self.anchor.min(self.head)
    }

    pub fn end(self) -> Position
        ensures { result ≡ end self }
    {
        self.anchor.max(self.head)
    }

    // Whether the two cover a common position.
    pub fn overlaps(self, other: Sel) -> bool
        ensures { result ≡ overlaps self other }
    {
        (self.start() <= other.end()) & (other.start() <= self.end())
    }
}
