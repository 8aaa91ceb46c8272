// Runs a script: feeds it what comes on standard input and writes what that prints, piece by piece, and at the end the text and the marks. A read or a
// write that fails is a line on standard error, and nothing is printed behind it.
#![tactic(auto)]

mod streams;

ghost use Rattle.std.specs.Prelude.{false, ◌≡◌, ◌≤◌, length, take};
ghost use Rattle.promise.specs.Slices.{over};
ghost use Rattle.loading.specs.States.{state_of, script_of, opening as start};
ghost use Rattle.step.specs.Calls.{Ready};
ghost use Rattle.feed.specs.Feeds.{fed_by, closing};
ghost use Rattle.scriptrun.specs.Runs.{Come, Stands, brought};

use crate::streams::{Streams, fail, is_to_try_again, print};
use feed::{HELD_ROOM, close, feed};
use loading::Script;
use select::Sel;
use std::io;
use std::io::{ErrorKind, Read};
use step::{MARK_ROOM, TEXT_ROOM, opening};

// How much one read may bring.
const INPUT_ROOM: usize = 65_536;

// The script, how much of a line is held, whether more of the input is to be read, and whether nothing has failed. Flags, and no `Result`:
// `take_read` and `take_bytes` promise what was fed where a write has failed too.
#[derive(Clone, Copy)]
struct Stand {
    script: Script,
    pending: usize,
    open: bool,
    sound: bool,
}

// Every byte is fed, in order and once, and what they print is written.
fn take_bytes(
    streams: Streams,
    stand: Stand,
    bytes: &[u8],
    line: &mut [u8],
    text: &mut [u32],
    marks: &mut [Option<Sel>],
    out: &mut [u8],
) -> Stand
    requires ready { Ready stand.script text.old marks.old × (stand.pending ≤ 36_865) × (36_865 ≤ length line.old) × (36_867 ≤ length out.old) }
    requires come { Come (state_of stand.script text.old marks.old) (take stand.pending line.old) }
    ensures ready_2 { Ready result.script text.new marks.new × (result.pending ≤ 36_865) }
    ensures stands { Stands (state_of result.script text.new marks.new) (take result.pending line.new) (fed_by (state_of stand.script text.old marks.old) (take stand.pending line.old) bytes.now) }
{
    let mut current = stand.script;
    let mut pending = stand.pending;
    let mut sound = stand.sound;
    let mut at = 0;
    // A cursor: each turn moves it by what the feeder took.
    while at < bytes.len() {
        let course = feed(current, pending, line, &bytes[at..], text, marks, out);
        let size = course.printed;
        sound = print(streams, &out[0..size], sound);
        current = course.script;
        pending = course.pending;
        at += course.taken;
    }
    Stand {
        script: current,
        pending,
        open: sound,
        sound,
    }
}

// The input cannot be read to its end.
fn fail_reading(streams: Streams, stand: Stand, error: io::Error) -> Stand
    ensures { (result.script ≡ stand.script) × (result.pending ≡ stand.pending) × (result.open ≡ false) }
{
    fail(streams, "standard input", error);
    Stand {
        open: false,
        sound: false,
        ..stand
    }
}

// Where a read brought nothing: the input has ended, or the read is to be made again, or it failed.
fn take_nothing(streams: Streams, stand: Stand, got: io::Result<usize>) -> Stand
    ensures { (result.script ≡ stand.script) × (result.pending ≡ stand.pending) }
{
    match got {
        Ok(_) => Stand {
            open: false,
            ..stand
        },
        Err(error) if is_to_try_again(error) => Stand {
            open: true,
            ..stand
        },
        Err(error) => fail_reading(streams, stand, error),
    }
}

// How many bytes of `input` a read brought.
fn brought(got: io::Result<usize>, input: &[u8]) -> usize
    ensures { result ≡ brought got (length input.now) }
{
    match got {
        Ok(count) => count.min(input.len()),
        Err(_) => 0,
    }
}

// What a read answered and put in front of `input`: every byte of it is fed, and no other.
fn take_read(
    streams: Streams,
    stand: Stand,
    got: io::Result<usize>,
    input: &[u8],
    line: &mut [u8],
    text: &mut [u32],
    marks: &mut [Option<Sel>],
    out: &mut [u8],
) -> Stand
    requires ready { Ready stand.script text.old marks.old × (stand.pending ≤ 36_865) × (36_865 ≤ length line.old) × (36_867 ≤ length out.old) }
    requires come { Come (state_of stand.script text.old marks.old) (take stand.pending line.old) }
    ensures ready_2 { Ready result.script text.new marks.new × (result.pending ≤ 36_865) }
    ensures stands { Stands (state_of result.script text.new marks.new) (take result.pending line.new) (fed_by (state_of stand.script text.old marks.old) (take stand.pending line.old) (take (brought got (length input.now)) input.now)) }
{
    let count = brought(got, input);
    if count == 0 {
        return take_nothing(streams, stand, got);
    }
    take_bytes(streams, stand, &input[0..count], line, text, marks, out)
}

// One read into `input`, and what comes of it.
fn read_some(
    streams: Streams,
    stand: Stand,
    input: &mut [u8],
    line: &mut [u8],
    text: &mut [u32],
    marks: &mut [Option<Sel>],
    out: &mut [u8],
) -> Stand
    requires ready { Ready stand.script text.old marks.old × (stand.pending ≤ 36_865) × (36_865 ≤ length line.old) × (36_867 ≤ length out.old) }
    requires come { Come (state_of stand.script text.old marks.old) (take stand.pending line.old) }
    ensures ready_2 { Ready result.script text.new marks.new × (result.pending ≤ 36_865) }
    ensures come_2 { Come (state_of result.script text.new marks.new) (take result.pending line.new) }
{
    let mut source = streams.input;
    let got = source.read(input);
    take_read(streams, stand, got, input, line, text, marks, out)
}

// All of the input. A proved loop has to end, so this one has a number of turns that no input uses up.
fn read_all(
    streams: Streams,
    stand: Stand,
    input: &mut [u8],
    line: &mut [u8],
    text: &mut [u32],
    marks: &mut [Option<Sel>],
    out: &mut [u8],
) -> Stand
    requires ready { Ready stand.script text.old marks.old × (stand.pending ≤ 36_865) × (36_865 ≤ length line.old) × (36_867 ≤ length out.old) }
    requires come { Come (state_of stand.script text.old marks.old) (take stand.pending line.old) }
    ensures ready_2 { Ready result.script text.new marks.new × (result.pending ≤ 36_865) }
    ensures come_2 { Come (state_of result.script text.new marks.new) (take result.pending line.new) }
    ensures open_value { result.open ≡ false }
{
    let mut read = stand;
    for _ in 0..u64::MAX {
        if !read.open {
            return read;
        }
        read = read_some(streams, read, input, line, text, marks, out);
    }
    fail_reading(streams, read, io::Error::from(ErrorKind::TimedOut))
}

// What is printed at the end of the input.
fn end(stand: Stand, text: &[u32], marks: &[Option<Sel>], out: &mut [u8]) -> usize
    requires { Ready stand.script text.now marks.now × (39_110 ≤ length out.old) }
    ensures { (out.new ≡ over (closing (state_of stand.script text.now marks.now) stand.pending) out.old) × (result ≡ length (closing (state_of stand.script text.now marks.now) stand.pending)) × (result ≤ 39_110) }
{
    let script = stand.script;
    let pending = stand.pending;
    close(script, pending, text, marks, out)
}

// The script from its opening to its ending.
fn run(
    streams: Streams,
    input: &mut [u8],
    line: &mut [u8],
    text: &mut [u32],
    marks: &mut [Option<Sel>],
    out: &mut [u8],
)
    requires { Ready (script_of start) text.old marks.old × (state_of (script_of start) text.old marks.old ≡ start) × (36_865 ≤ length line.old) × (39_110 ≤ length out.old) }
{
    let first = Stand {
        script: opening(),
        pending: 0,
        open: true,
        sound: true,
    };
    let last = read_all(streams, first, input, line, text, marks, out);
    let size = end(last, text, marks, out);
    print(streams, &out[0..size], last.sound);
}

fn main(rt: HostRuntime) {
    let streams = Streams {
        input: rt.stdin(),
        output: rt.stdout(),
        errors: rt.stderr(),
    };
    let mut input = [0u8; INPUT_ROOM];
    let mut line = [0u8; HELD_ROOM];
    let mut text = [0u32; TEXT_ROOM];
    let mut marks = [None; MARK_ROOM];
    let mut out = [0u8; 131_072];
    run(
        streams, &mut input, &mut line, &mut text, &mut marks, &mut out,
    );
}
