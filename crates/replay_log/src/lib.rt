// A run over a log: lines to events, events to answers, answers to text.
//
// The log may come in pieces, cut anywhere. A run keeps the machine and the bytes of a line that
// has no line feed yet, at most one more than a line may have. An event changes the machine in place.
#![tactic(auto)]

ghost use Rattle.std.specs.Prelude.{◌≡◌, ◌==◌, position, [], ◌++◌, ◌-◌, ◌≤◌, length, take};
ghost use Rattle.rules.specs.State.{answered};
ghost use Rattle.texts.specs.Texts.{put_line, put_count};
ghost use Rattle.replay_log.specs.Replay.{step_line};
ghost use Rattle.replay_log.specs.Feed.{text_at_end, line_length, going_of};
ghost use Rattle.replay_log.specs.Run.{Puts, Runs};

use lines::{MAX_LINE, MAX_RECORD};
use machine_state::{Answer, Machine};
use texts::MAX_TEXT;

// How many bytes of a line are kept: one more than a line may have.
pub const KEPT: usize = MAX_LINE + 1;

// What a run keeps between two pieces of a log: the machine, and the first `len` bytes of `line`.
// An array and a length: memory is fixed, with no heap, and a run is `Copy`, which an `ArrayVec` is not.
#[derive(Clone, Copy)]
pub struct Replay {
    pub machine: Machine,
    pub line: [u8; KEPT],
    pub len: usize,
}

// A run after a piece: how much of the piece was taken, and how much of the output written.
#[derive(Clone, Copy)]
pub struct Ran {
    pub replay: Replay,
    pub taken: usize,
    pub written: usize,
}

// Where the first line feed stands, if there is one.
fn first_feed(bytes: &[u8]) -> Option<usize>
    ensures { result ≡ position (λ b. b == 10) bytes.now }
{
    bytes.iter().position(|b| *b == b'\n')
}

// How many bytes stand before the first line feed, or all of them.
fn line_length(bytes: &[u8]) -> usize
    ensures value { result ≡ line_length bytes.now }
    ensures upper_bound { result ≤ length bytes.now }
{
    first_feed(bytes).unwrap_or(bytes.len())
}

// Puts bytes behind the first `len` of a line, as far as they fit, and gives the new length.
fn append(line: &mut [u8], len: usize, bytes: &[u8]) -> usize
    requires { len ≤ length line.old }
    ensures line_after { take result line.new ≡ take (length line.old) (take len line.old ++ bytes.now) }
    ensures upper_bound { result ≤ length line.old }
    ensures line_len_unchanged { length line.new ≡ length line.old }
{
    let n = std::cmp::min(line.len() - len, bytes.len());
    line[len..len + n].copy_from_slice(&bytes[..n]);
    len + n
}

// A run that has read nothing yet.
pub fn start(machine: Machine) -> Replay
    ensures { going_of result [] ≡ record { machine = machine; begun = []; text = [] } }
{
    Replay {
        machine,
        line: [0; KEPT],
        len: 0,
    }
}

// The answer to a line, whose event changes the machine in place. `record` is room for its record.
fn answer(m: &mut Machine, line: &[u8], record: &mut [u8; MAX_RECORD]) -> Answer
    ensures { answered result m.new ≡ step_line line.now m.old }
{
    let read = lines::read_line(line, record);
    manager::answer(m, read.event, &record[..read.len])
}

// Writes an answer behind what is written, and gives the place after it.
fn put(answer: Answer, written: usize, out: &mut [u8]) -> usize
    requires { (written ≤ length out.old) × (32 ≤ length out.old - written) }
    ensures { Puts answer written out.old result out.new }
{
    written + texts::put_answer(answer, &mut out[written..])
}

// Runs over a piece of a log and writes the answers to `out`, as long as a line fits there. Gives
// the run to go on with, how much of the piece was taken, and how much of `out` written.
pub fn run(kept: Replay, log: &[u8], out: &mut [u8]) -> Ran
    ensures { Runs kept log.now out.old result out.new }
{
    let mut machine = kept.machine;
    let mut line = kept.line;
    let mut len = std::cmp::min(kept.len, KEPT);
    let mut record = [0u8; MAX_RECORD];
    let mut at = 0;
    let mut written = 0;
    // A turn takes a line, as long as there are bytes and room for an answer.
    while at < log.len() && MAX_TEXT <= out.len() - written {
        let end = at + line_length(&log[at..]);
        len = append(&mut line, len, &log[at..end]);
        at = end;
        if end < log.len() {
            at = end + 1;
            let answer = answer(&mut machine, &line[..len], &mut record);
            written = put(answer, written, out);
            len = 0;
        }
    }
    Ran {
        replay: Replay { machine, line, len },
        taken: at,
        written,
    }
}

// The end of the log: a last line without its line feed, if there is one, is answered as if it had it.
// Writes the answer to the start of `out` and gives its length; 0, as the definition (`put_count`) has it,
// where there is no line, or `out` has less room than a line may need.
pub fn finish(kept: Replay, out: &mut [u8]) -> usize
    ensures value { result ≡ put_count 32 (text_at_end (going_of kept [])) out.old }
    ensures out_after { out.new ≡ put_line 32 (text_at_end (going_of kept [])) out.old }
{
    if kept.len == 0 {
        return 0;
    }
    if out.len() < MAX_TEXT {
        return 0;
    }
    run(kept, b"\n", out).written
}
