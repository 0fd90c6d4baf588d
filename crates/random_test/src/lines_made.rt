// Lines of a log, made of the script's templates by throws of dice.
//
// A template is a line `line WORDS`. Its word `$NAME` stands for one of the words of the script's
// line `list NAME = ..`, `~NAME` for one of them that is a record and is damaged, `@NAME` for a
// record in HEX, and every other word for itself.
use crate::dice::Dice;
use arrayvec::ArrayVec;
use cell_rules::MAX_LENGTH;
use lines::MAX_LINE;
use std::io::Write;
use test_support::names::Script;
use test_support::records::Record;
use test_support::{expand, text};

// Room for a line with its line feed.
pub(crate) const LOG: usize = MAX_LINE + 1;

// What a line says behind its first word, where that is `word`.
fn said<'a>(line: &'a [u8], word: &[u8]) -> Option<&'a [u8]> {
    let (first, behind) = text::first_word(line);
    (first == word).then_some(behind)
}

// Of the script's lines that begin with `word`, the `k`-th from 0, without that word.
pub(crate) fn nth<'a>(script: &Script<'a>, word: &[u8], k: usize) -> &'a [u8] {
    let lines = script.0.split(text::is_feed);
    lines
        .filter_map(|line| said(line, word))
        .nth(k)
        .unwrap_or(b"")
}

// How many templates are thrown: those before the first that has no words, and 1000 at most.
pub(crate) fn templates(script: &Script) -> u64 {
    let lines = script.0.split(text::is_feed);
    lines
        .filter_map(|line| said(line, b"line"))
        .take_while(|template| !template.is_empty())
        .take(1000)
        .count() as u64
}

// Word `k` of a list, counted round.
pub(crate) fn of_list<'a>(script: &Script<'a>, name: &[u8], k: usize) -> &'a [u8] {
    let words = script.said_of(b"list", name).unwrap_or(b"");
    let n = words.split(|byte| *byte == b' ').count();
    if n == 0 {
        b""
    } else {
        text::word(words, k % n)
    }
}

// A record with another byte, another length, or far too long.
fn damaged(dice: Dice, record: Record) -> Record {
    let mut damaged = record;
    let a = dice.thrown();
    match dice.below(8) {
        0 => damaged.resize(MAX_LENGTH + 1),
        1 => damaged.resize(a.below(200) as usize),
        _ => damaged.put(a.below(130) as usize, &[a.thrown().below(255) as u8]),
    }
    damaged
}

// Writes a word of a template, a record by its name, behind what is written.
fn put_word<const N: usize>(out: &mut ArrayVec<u8, N>, script: &Script, word: &[u8], dice: Dice) {
    let picked = |name: &[u8]| of_list(script, name, dice.below(1000) as usize);
    match word.split_first() {
        Some((b'$', name)) => {
            let _ = out.write(picked(name));
        }
        Some((b'~', name)) => {
            let named = script.record_at(picked(name));
            expand::put_record(out, &damaged(dice.thrown(), named.record));
        }
        _ => {
            let _ = out.write(word);
        }
    }
}

// Writes a line and its line feed, and gives the dice after it.
pub(crate) fn line<const N: usize>(
    out: &mut ArrayVec<u8, N>,
    script: &Script,
    templates: u64,
    dice: Dice,
) -> Dice {
    let mut words = ArrayVec::<u8, LOG>::new();
    let mut next = dice.thrown();
    let template = nth(script, b"line", dice.below(templates) as usize);
    for word in template.split(|byte| *byte == b' ') {
        put_word(&mut words, script, word, next);
        let _ = words.write(b" ");
        next = next.thrown().thrown().thrown();
    }
    let bytes = text::first(words.as_slice(), words.len().saturating_sub(1));
    let _ = expand::expand(out, script, bytes);
    let _ = out.write(b"\n");
    next
}
