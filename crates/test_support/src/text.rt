// The words and numbers of a text. The text of a script is any bytes: its lines end at line feeds alone. What
// is not there is no bytes, and no option: who asks for it compares it with a text, reads it as a number or
// prints it.
use std::str;

// The first `n` bytes of a room, or all of them where there are fewer.
pub fn first(bytes: &[u8], n: usize) -> &[u8] {
    bytes.get(..n).unwrap_or(bytes)
}

// What a program of ours wrote to the start of a room, which is ASCII.
pub fn text_of(bytes: &[u8], n: usize) -> &str {
    str::from_utf8(first(bytes, n)).unwrap_or("")
}

// The first line of a text, without its line feed.
pub fn first_line(s: &str) -> &str {
    s.lines().next().unwrap_or("")
}

// Whether a line ends at a byte.
pub fn is_feed(byte: &u8) -> bool {
    *byte == b'\n'
}

// A line without its line feed, if it has one.
pub fn unended(line: &[u8]) -> &[u8] {
    line.strip_suffix(b"\n").unwrap_or(line)
}

// What stands before the first such byte, and what behind it.
pub fn cut_at(s: &[u8], delimiter: u8) -> Option<(&[u8], &[u8])> {
    let end = s.iter().position(|byte| *byte == delimiter)?;
    let (front, rest) = s.split_at_checked(end)?;
    Some((front, rest.get(1..)?))
}

// A text's first word, and what follows the space behind it.
pub fn first_word(s: &[u8]) -> (&[u8], &[u8]) {
    cut_at(s, b' ').unwrap_or((s, b""))
}

// Word `k`, counted from 0; words stand between single spaces. Nothing where there are fewer.
pub fn word(s: &[u8], k: usize) -> &[u8] {
    s.split(|byte| *byte == b' ').nth(k).unwrap_or(b"")
}

// A number as far as it can be read, and whether the whole of its word is one. A flag, and no option:
// a line that is wrong counts so, and is run with what can be read of it.
#[derive(Clone, Copy)]
pub struct Number {
    pub value: u64,
    pub whole: bool,
}

impl Number {
    // With one digit more. Only a front below 2^60 can have one.
    fn with_digit(self, base: u64, byte: u8) -> Self {
        let front = self.value % 0x1000_0000_0000_0000;
        let digit = b"0123456789abcdef".iter().position(|d| *d == byte);
        let low = digit.unwrap_or(0) as u64;
        Number {
            value: front.wrapping_mul(base).wrapping_add(low),
            whole: self.whole && front == self.value && digit.is_some() && low < base,
        }
    }
}

// The number that digits make, those above 9 in lower case.
pub fn digits(digits: &[u8], base: u64) -> Number {
    let none = Number {
        value: 0,
        whole: !digits.is_empty(),
    };
    digits
        .iter()
        .fold(none, |n, byte| n.with_digit(base, *byte))
}

// A word as a number: decimal, or after 0x hexadecimal in lower case.
pub fn number_of(word: &[u8]) -> Number {
    match word.strip_prefix(b"0x") {
        Some(behind) => digits(behind, 16),
        None => digits(word, 10),
    }
}

// Whether a line of a script says nothing to run.
pub fn is_remark(line: &[u8]) -> bool {
    line.is_empty() || line.starts_with(b"#")
}
