// Records by name. A script has lines `record NAME = BASE WORDS`: the record NAME is what the words
// (words.rt) make of the record BASE, or of no bytes where BASE is `nothing`. A base may have a base
// of its own, and that one `nothing` alone.
use crate::records::Record;
use crate::{text, words};

// A record as far as it can be read, and whether the script has it and all of its words can be read.
#[derive(Clone, Copy)]
pub struct Named {
    pub record: Record,
    pub whole: bool,
}

#[derive(Clone, Copy)]
pub struct Script<'a>(pub &'a [u8]);

impl<'a> Script<'a> {
    // What the script says of a name in a line `KIND NAME = ..`.
    pub fn said_of(&self, kind: &[u8], name: &[u8]) -> Option<&'a [u8]> {
        let mut lines = self.0.split(text::is_feed);
        lines.find_map(|line| said(line, kind, name))
    }

    // The base and the words of a record; no bytes where the script has none, which changes nothing.
    fn made_of(&self, name: &[u8]) -> (&'a [u8], &'a [u8]) {
        text::first_word(self.said_of(b"record", name).unwrap_or(b""))
    }

    // The record of a name.
    pub fn record(&self, name: &[u8]) -> Named {
        let last = self.made_of(name);
        let middle = self.made_of(last.0);
        let first = self.made_of(middle.0);
        let lines = [first, middle, last];
        let mut named = Named {
            record: Record::empty(),
            whole: lines.iter().any(|(base, _)| *base == b"nothing".as_slice()),
        };
        for (_, words) in lines {
            let built = words::build(&named.record, words);
            named.record = built.record;
            named.whole &= built.whole;
        }
        named
    }

    // The record that a word `@NAME` stands for.
    pub fn record_at(&self, word: &[u8]) -> Named {
        self.record(word.get(1..).unwrap_or(b""))
    }
}

// What a line says behind `KIND NAME = `, if it is of this kind and says something of this name.
fn said<'a>(line: &'a [u8], kind: &[u8], name: &[u8]) -> Option<&'a [u8]> {
    let (first, behind) = text::cut_at(line, b' ')?;
    let (second, behind) = text::cut_at(behind, b' ')?;
    let (_, said) = text::cut_at(behind, b' ')?;
    if first == kind && second == name && !said.is_empty() {
        Some(said)
    } else {
        None
    }
}
