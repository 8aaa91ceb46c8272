// The form of each kind of frame. The bytes are the whole line's.
#![tactic(auto)]

ghost use Rattle.std.specs.Prelude.{◌≡◌};
ghost use Rattle.frame.specs.Forms.{head_of, mark_form, insert_form, kind_form, delete_form, join_form, flagged, split_form, replace_form, strings_in, is_cut, block_form, chunks_form, form_by, form_of};

use edit::{Edit, MotionKind};
use frame::{Head, number_at, position_at};
use select::Sel;
use text::{Position, Row};
use utf8::ByteOffset;

fn mark_head(bytes: &[u8]) -> Head
    ensures { result ≡ head_of (mark_form bytes.now) }
{
    if bytes.len() != 17 {
        return Head::Malformed;
    }
    let anchor = position_at(bytes, ByteOffset(1));
    let head = position_at(bytes, ByteOffset(9));
    Head::Mark(Sel::new(anchor, head))
}

fn insert_head(bytes: &[u8]) -> Head
    ensures { result ≡ head_of (insert_form bytes.now) }
{
    if bytes.len() < 9 {
        return Head::Malformed;
    }
    let at = position_at(bytes, ByteOffset(1));
    Head::Edit(Edit::InsertStr { at })
}

fn kind_head(kind: u8, start: Position, end: Position) -> Head
    ensures { result ≡ head_of (kind_form kind start end) }
{
    match kind {
        0 => Head::Edit(Edit::DeleteRange {
            start,
            end,
            kind: MotionKind::Char,
        }),
        1 => Head::Edit(Edit::DeleteRange {
            start,
            end,
            kind: MotionKind::Line,
        }),
        2 => Head::Edit(Edit::DeleteRange {
            start,
            end,
            kind: MotionKind::Block,
        }),
        _ => Head::Malformed,
    }
}

fn delete_head(bytes: &[u8]) -> Head
    ensures { result ≡ head_of (delete_form bytes.now) }
{
    if bytes.len() != 18 {
        return Head::Malformed;
    }
    let start = position_at(bytes, ByteOffset(2));
    let end = position_at(bytes, ByteOffset(10));
    kind_head(bytes[1], start, end)
}

fn join_head(bytes: &[u8]) -> Head
    ensures { result ≡ head_of (join_form bytes.now) }
{
    if bytes.len() != 10 {
        return Head::Malformed;
    }
    let flag = bytes[9];
    if 1 < flag {
        return Head::Malformed;
    }
    let row = number_at(bytes, ByteOffset(1));
    let count = number_at(bytes, ByteOffset(5));
    Head::Edit(Edit::JoinLines {
        row: Row(row),
        count,
        with_space: flag == 1,
    })
}

// Whether the bytes are columns with their flag bytes.
fn is_flagged(items: &[u8]) -> bool
    ensures { result ≡ flagged items.now }
{
    if items.len() % 5 != 0 {
        return false;
    }
    items.chunks_exact(5).all(|item| item[4] <= 1)
}

fn split_head(bytes: &[u8]) -> Head
    ensures { result ≡ head_of (split_form bytes.now) }
{
    if bytes.len() < 5 {
        return Head::Malformed;
    }
    if !is_flagged(&bytes[5..]) {
        return Head::Malformed;
    }
    let row = number_at(bytes, ByteOffset(1));
    Head::Edit(Edit::SplitLines { row: Row(row) })
}

fn replace_head(bytes: &[u8]) -> Head
    ensures { result ≡ head_of (replace_form bytes.now) }
{
    if bytes.len() < 17 {
        return Head::Malformed;
    }
    let start = position_at(bytes, ByteOffset(1));
    let end = position_at(bytes, ByteOffset(9));
    Head::Edit(Edit::Replace { start, end })
}

// Whether the bytes are strings, each behind its length.
fn is_cut(strings: &[u8]) -> bool
    ensures { result ≡ is_cut (strings_in strings.now) }
{
    let mut at = 0;
    // A cursor: each turn moves it by what it read.
    while at < strings.len() {
        let left = strings.len() - at;
        if left < 4 {
            return false;
        }
        let length = number_at(strings, ByteOffset(at)) as usize;
        let rest = left - 4;
        if rest < length {
            return false;
        }
        at += 4 + length;
    }
    true
}

fn chunks_head(bytes: &[u8]) -> Head
    ensures { result ≡ head_of (chunks_form bytes.now) }
{
    if bytes.len() < 9 {
        return Head::Malformed;
    }
    if (bytes.len() - 9) % 8 != 0 {
        return Head::Malformed;
    }
    let at = position_at(bytes, ByteOffset(1));
    Head::Edit(Edit::DeleteBlockChunks { at })
}

fn block_head(bytes: &[u8]) -> Head
    ensures { result ≡ head_of (block_form bytes.now) }
{
    if bytes.len() < 9 {
        return Head::Malformed;
    }
    if !is_cut(&bytes[9..]) {
        return Head::Malformed;
    }
    let at = position_at(bytes, ByteOffset(1));
    Head::Edit(Edit::InsertBlock { at })
}

fn head_by(kind: u8, bytes: &[u8]) -> Head
    ensures { result ≡ head_of (form_by kind bytes.now) }
{
    match kind {
        0x01 => Head::Text,
        0x02 => mark_head(bytes),
        0x10 => insert_head(bytes),
        0x11 => delete_head(bytes),
        0x12 => join_head(bytes),
        0x13 => split_head(bytes),
        0x14 => replace_head(bytes),
        0x15 => block_head(bytes),
        0x16 => chunks_head(bytes),
        _ => Head::Malformed,
    }
}

// What the bytes of a line are.
pub fn head_of(bytes: &[u8]) -> Head
    ensures { result ≡ head_of (form_of bytes.now) }
{
    match bytes {
        [kind, ..] => head_by(*kind, bytes),
        [] => Head::Malformed,
    }
}
