// A line of a log: the event that it says, and the bytes of the record that it brings, from one walk
// through its words.
//
// Every function that other crates can call takes any bytes of any length.
#![tactic(auto)]

mod hex;
mod numbers;
mod words;

ghost use Rattle.std.specs.Prelude.{◌≡◌, [], ◌∷◌};
ghost use Rattle.lines.specs.Lines.{value, is_create, is_exit, event_of};
ghost use Rattle.lines.specs.Reading.{event_if, event_or, hex_word, Cuts, ReadsLine};
ghost use Rattle.machine_state.specs.declared.Event.TheVariants.{Call, Exit};

use hex::{decode, is_hex};
use machine_state::{CELL_CREATE, Event};
use numbers::{word_number, word32_number};
use words::{first_word, is_word};

// The longest line, without its line feed.
pub const MAX_LINE: usize = 4400;

// The longest record that a line can bring.
pub const MAX_RECORD: usize = MAX_LINE / 2;

// A line that is read: its event, and how many bytes of a record it brings. A length, and no slice of the room
// lent: no contract says what is left in a `&mut` whose bytes are handed out behind a `&`.
#[derive(Clone, Copy)]
pub struct Line {
    pub event: Event,
    pub len: usize,
}

// What a line says: its event, and the HEX of a `create` line; no bytes in any other.
#[derive(Clone, Copy)]
struct Said<'a> {
    event: Event,
    hex: &'a [u8],
}

// `poll`
fn one_word(w: &[u8]) -> Option<Event>
    ensures { event_or result ≡ event_of (w.now ∷ []) }
{
    is_word(w, b"poll").then_some(Event::Poll)
}

// `fault CPU`
fn two_words(w: &[u8], a: &[u8]) -> Option<Event>
    ensures { event_or result ≡ event_of (w.now ∷ a.now ∷ []) }
{
    if !is_word(w, b"fault") {
        return None;
    }
    let cpu = word_number(a)?;
    Some(Event::Fault(cpu))
}

// `create CPU HEX`
fn create_words(w: &[u8], a: &[u8], b: &[u8]) -> Option<Event>
    ensures { result ≡ event_if (is_create w.now a.now b.now) (Call (value a.now) 1 0 0) }
{
    if !is_word(w, b"create") {
        return None;
    }
    let cpu = word_number(a)?;
    is_hex(b).then_some(Event::Call(cpu, CELL_CREATE, 0, 0))
}

// `exit CPU KIND`
fn exit_words(w: &[u8], a: &[u8], b: &[u8]) -> Option<Event>
    ensures { result ≡ event_if (is_exit w.now a.now b.now) (Exit (value a.now) (value b.now)) }
{
    if !is_word(w, b"exit") {
        return None;
    }
    let cpu = word_number(a)?;
    let kind = word_number(b)?;
    Some(Event::Exit(cpu, kind))
}

// `create CPU HEX`, which brings its HEX, or `exit CPU KIND`
fn three_words<'a>(w: &[u8], a: &[u8], b: &'a [u8]) -> Said<'a>
    ensures event { result.event ≡ event_of (w.now ∷ a.now ∷ b.now ∷ []) }
    ensures hex { result.hex.now ≡ hex_word (w.now ∷ a.now ∷ b.now ∷ []) }
{
    match create_words(w, a, b) {
        Some(event) => Said { event, hex: b },
        None => plain(exit_words(w, a, b)),
    }
}

// `store CPU WORD VALUE`
fn four_words(w: &[u8], a: &[u8], b: &[u8], c: &[u8]) -> Option<Event>
    ensures { event_or result ≡ event_of (w.now ∷ a.now ∷ b.now ∷ c.now ∷ []) }
{
    if !is_word(w, b"store") {
        return None;
    }
    let cpu = word_number(a)?;
    let word = word_number(b)?;
    let value = word32_number(c)?;
    Some(Event::Store(cpu, word, value))
}

// `call CPU CODE A1 A2`
fn five_words(w: &[u8], a: &[u8], b: &[u8], c: &[u8], d: &[u8]) -> Option<Event>
    ensures { event_or result ≡ event_of (w.now ∷ a.now ∷ b.now ∷ c.now ∷ d.now ∷ []) }
{
    if !is_word(w, b"call") {
        return None;
    }
    let cpu = word_number(a)?;
    let code = word32_number(b)?;
    let arg1 = word_number(c)?;
    let arg2 = word_number(d)?;
    Some(Event::Call(cpu, code, arg1, arg2))
}

// A line that brings no record: its event, which is `Malformed` where it says none.
fn plain(event: Option<Event>) -> Said<'static>
    ensures event { result.event ≡ event_or event }
    ensures hex { result.hex.now ≡ [] }
{
    Said {
        event: event.unwrap_or(Event::Malformed),
        hex: &[],
    }
}

// The walk through the words of a line, without its line feed.
fn cut_line(line: &[u8]) -> Said
    ensures { Cuts line.now result.event result.hex.now }
{
    if MAX_LINE < line.len() {
        return plain(None);
    }
    let (w, rest) = first_word(line);
    let Some(rest) = rest else {
        return plain(one_word(w));
    };
    let (a, rest) = first_word(rest);
    let Some(rest) = rest else {
        return plain(two_words(w, a));
    };
    let (b, rest) = first_word(rest);
    let Some(rest) = rest else {
        return three_words(w, a, b);
    };
    let (c, rest) = first_word(rest);
    let Some(rest) = rest else {
        return plain(four_words(w, a, b, c));
    };
    let (d, rest) = first_word(rest);
    match rest {
        None => plain(five_words(w, a, b, c, d)),
        Some(_) => plain(None),
    }
}

// Reads a line, without its line feed: gives its event, writes the record that it brings to the
// start of `record`, as far as it fits, and gives its length there.
pub fn read_line(line: &[u8], record: &mut [u8]) -> Line
    ensures { ReadsLine line.now «record».old result «record».new }
{
    let said = cut_line(line);
    let len = decode(said.hex, record);
    Line {
        event: said.event,
        len,
    }
}
