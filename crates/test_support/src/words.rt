// The words of a table's line, which change a record one after the other.
//
//   @N            go to byte N
//   bN wN dN qN   put N there as a u8, u16, u32 or u64, and go on behind it
//   "text"        put these bytes there, and go on behind them
//   #N            make the record N bytes long
//   =             keep the record: later lines of its reader start from it
//   !             start the system: later cells are read in it
//
// N is a decimal number, or after 0x a hexadecimal one in lower case. Any other word is an error.
// Numbers are little-endian.
use crate::records::Record;
use crate::text::{self, Number};

// What the words so far have made, whether all of them could be read, and the place where the next
// number or text goes.
#[derive(Clone, Copy)]
pub struct Built {
    pub record: Record,
    pub keep: bool,
    pub start: bool,
    pub whole: bool,
    at: usize,
}

// What the words of a text make of a record. A word that cannot be read does what can be read of it.
pub fn build(record: &Record, words: &[u8]) -> Built {
    let mut built = Built {
        record: *record,
        keep: false,
        start: false,
        whole: true,
        at: 0,
    };
    let mut left = words;
    for _ in 0..words.len() {
        left = built.take_first(left);
    }
    built
}

impl Built {
    // The first word or text of what is left, and gives what follows it.
    fn take_first<'a>(&mut self, left: &'a [u8]) -> &'a [u8] {
        let Some(behind) = left.strip_prefix(b"\"") else {
            let (word, rest) = text::first_word(left);
            self.take(word);
            return rest;
        };
        if let Some((text, rest)) = text::cut_at(behind, b'"') {
            self.put(text);
            return rest;
        }
        // A text that does not end is an error.
        self.put(behind);
        self.whole = false;
        b""
    }

    // One word more. Between two spaces stands none, and one that begins with a zero byte says nothing.
    fn take(&mut self, word: &[u8]) {
        match word.split_first() {
            None | Some((0, _)) => {}
            Some((b'=', _)) => self.keep = true,
            Some((b'!', _)) => self.start = true,
            Some((kind, digits)) => self.take_number(*kind, text::number_of(digits)),
        }
    }

    fn take_number(&mut self, kind: u8, n: Number) {
        self.whole &= n.whole;
        match kind {
            b'@' => self.at = n.value as usize,
            b'#' => self.record.resize(n.value as usize),
            b'b' => self.put_number(n.value, 1),
            b'w' => self.put_number(n.value, 2),
            b'd' => self.put_number(n.value, 4),
            b'q' => self.put_number(n.value, 8),
            _ => self.whole = false,
        }
    }

    // The low bytes of a number: an error where it has more.
    fn put_number(&mut self, n: u64, size: usize) {
        let bytes = n.to_le_bytes();
        self.put(bytes.get(..size).unwrap_or(&bytes));
        self.whole &= bytes.iter().skip(size).all(|byte| *byte == 0);
    }

    fn put(&mut self, bytes: &[u8]) {
        self.record.put(self.at, bytes);
        self.at = self.at.saturating_add(bytes.len());
    }
}
