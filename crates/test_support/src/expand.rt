// The bytes that a line of a script stands for: `@NAME` is the HEX of a record (names.rt), `\xNN`
// one byte, and every other byte itself. A name ends before a space or another `@`.
use crate::names::Script;
use crate::records::Record;
use crate::text;
use arrayvec::ArrayVec;
use std::io::Write;

// The digit of HEX for the low half of a byte.
fn hex_digit(byte: u8) -> u8 {
    let low = byte % 16;
    if low < 10 {
        b'0' + low
    } else {
        b'a' + (low - 10)
    }
}

// Writes the HEX of a record behind what is written, as far as there is room. Not by a formatter: a script
// may name thousands of records, and one call of it for each byte is most of the run.
pub fn put_record<const N: usize>(out: &mut ArrayVec<u8, N>, record: &Record) {
    for byte in record.bytes() {
        if out.is_full() {
            return;
        }
        let _ = out.write(&[hex_digit(*byte / 16), hex_digit(*byte)]);
    }
}

// Writes the byte of `xNN`. Gives what follows it, and whether it can be read.
fn put_escaped<'a, const N: usize>(out: &mut ArrayVec<u8, N>, text: &'a [u8]) -> (&'a [u8], bool) {
    let escape = text.get(..3).unwrap_or(text);
    let byte = text::digits(escape.get(1..).unwrap_or(escape), 16);
    let _ = out.write(&[u8::try_from(byte.value).unwrap_or(0)]);
    let whole = byte.whole && escape.len() == 3 && escape.starts_with(b"x");
    (text.get(3..).unwrap_or(b""), whole)
}

// Writes the HEX of the record that a text begins with the name of. Gives what follows the name, and
// whether the record can be read.
fn put_named<'a, const N: usize>(
    out: &mut ArrayVec<u8, N>,
    script: &Script,
    text: &'a [u8],
) -> (&'a [u8], bool) {
    let mut bytes = text.iter();
    let end = bytes
        .position(|b| matches!(*b, b' ' | b'@'))
        .unwrap_or(text.len());
    let named = script.record(text::first(text, end));
    put_record(out, &named.record);
    (text.get(end..).unwrap_or(b""), named.whole)
}

// Writes the bytes of a line behind what is written, as far as there is room, and gives whether all
// names and escapes can be read.
pub fn expand<const N: usize>(out: &mut ArrayVec<u8, N>, script: &Script, line: &[u8]) -> bool {
    let mut all = true;
    let mut left = line;
    for _ in 0..line.len() {
        let Some((first, behind)) = left.split_first() else {
            return all;
        };
        let (rest, whole) = match *first {
            b'@' => put_named(out, script, behind),
            b'\\' => put_escaped(out, behind),
            byte => {
                let _ = out.write(&[byte]);
                (behind, true)
            }
        };
        left = rest;
        all &= whole;
    }
    all
}
