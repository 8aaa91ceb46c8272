// Bytes that are put together. What has no room is left out.
ghost use Rattle.std.specs.Prelude.{◌≡◌, ◌≤◌};

use crate::words::{Word, word_of};

pub(crate) const ROOM: usize = 131_072;

#[derive(Drop)]
pub(crate) struct Buffer {
    bytes: [u8; ROOM],
    length: usize,
    ghost within: { length ≤ 131_072 },
}

impl Buffer {
    pub(crate) fn new() -> Buffer
        ensures { result.length ≡ 0 }
    {
        Buffer {
            bytes: [0; ROOM],
            length: 0,
        }
    }

    pub(crate) fn as_slice(&self) -> &[u8] {
        &self.bytes[..self.length]
    }

    pub(crate) fn clear(&mut self)
        ensures { self.new.length ≡ 0 }
    {
        self.length = 0;
    }

    // The bytes once, and then, as long as there is room, what stands there of them copied behind itself: a turn doubles it.
    fn push_times(&mut self, bytes: &[u8], times: usize) {
        if bytes.is_empty() {
            return;
        }
        let start = self.length;
        let size = bytes.len().saturating_mul(times).min(ROOM - start);
        let mut done = bytes.len().min(size);
        self.bytes[start..start + done].copy_from_slice(&bytes[..done]);
        // A cursor: each turn moves it by what it copied.
        while done < size {
            let more = done.min(size - done);
            self.bytes.copy_within(start..start + more, start + done);
            done += more;
        }
        self.length = start + size;
    }

    // The words of a line, one behind the other.
    pub(crate) fn push_words(&mut self, line: &[u8]) {
        for word in line.split(|x| *x == b' ') {
            match word_of(word) {
                Word::Octet(octet) => self.push_times(&[octet], 1),
                Word::Repeated(digits, times) => self.push_times(digits, times),
            }
        }
    }

    // The same, and LF.
    pub(crate) fn push_line(&mut self, line: &[u8]) {
        self.push_words(line);
        self.push_times(b"\n", 1);
    }
}
