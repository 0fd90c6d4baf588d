// The questions of a line: their words and numbers, and what answers them.
use crate::show::Reply;
use arrayvec::ArrayVec;
use detection::Leaf;
use machine_state::{CellPage, MAX_CELLS, Machine, PhysPage};
use test_support::text;

// How many numbers a question has at most.
const NUMBERS: usize = 5;

// What is asked: cells by their IDs, and a leaf with the processor's own registers.
#[derive(Clone, Copy)]
pub(crate) enum Question {
    Owner(PhysPage),
    Touch(PhysPage),
    Map(u64, CellPage),
    Word(u64, u64),
    Byte(u64, u64),
    Leaf(u32, Leaf),
    Count(u64),
    Free(u16),
}

// Whether a line's first word is a question's.
pub(crate) fn is_question(word: &[u8]) -> bool {
    matches!(
        word,
        b"owner" | b"touch" | b"map" | b"word" | b"read" | b"leaf" | b"count" | b"free"
    )
}

// The numbers that words are; nothing where one is none, or where there are more than a question has.
fn numbers(words: &[u8]) -> Option<ArrayVec<u64, NUMBERS>> {
    let mut numbers = ArrayVec::new();
    for word in words.split(|byte| *byte == b' ') {
        let number = text::number_of(word);
        if !number.whole {
            return None;
        }
        numbers.try_push(number.value).ok()?;
    }
    Some(numbers)
}

impl Question {
    // The question of a line; nothing where it cannot be read.
    pub(crate) fn read(line: &[u8]) -> Option<Question> {
        let (word, words) = text::cut_at(line, b' ')?;
        let numbers = numbers(words)?;
        match numbers.as_slice() {
            [a] => Question::of_one(word, *a),
            [a, b] => Question::of_two(word, *a, *b),
            [leaf, eax, ebx, ecx, edx] if word == b"leaf".as_slice() => {
                Question::of_leaf(*leaf, [*eax, *ebx, *ecx, *edx])
            }
            _ => None,
        }
    }

    fn of_one(word: &[u8], a: u64) -> Option<Question> {
        match word {
            b"owner" => Some(Question::Owner(PhysPage(a))),
            b"touch" => Some(Question::Touch(PhysPage(a))),
            b"count" => Some(Question::Count(a)),
            b"free" => Some(Question::Free(u16::try_from(a).ok()?)),
            _ => None,
        }
    }

    fn of_two(word: &[u8], cell: u64, b: u64) -> Option<Question> {
        match word {
            b"map" => Some(Question::Map(cell, CellPage(b))),
            b"word" => Some(Question::Word(cell, b)),
            b"read" => Some(Question::Byte(cell, b)),
            _ => None,
        }
    }

    fn of_leaf(leaf: u64, [eax, ebx, ecx, edx]: [u64; 4]) -> Option<Question> {
        let passed = Leaf {
            eax: u32::try_from(eax).ok()?,
            ebx: u32::try_from(ebx).ok()?,
            ecx: u32::try_from(ecx).ok()?,
            edx: u32::try_from(edx).ok()?,
        };
        Some(Question::Leaf(u32::try_from(leaf).ok()?, passed))
    }

    // What a machine answers.
    pub(crate) fn reply(self, m: &Machine) -> Reply {
        match self {
            Question::Owner(page) => Reply::Owner(pages::owner_of(m, page)),
            Question::Touch(page) => Reply::Truth(pages::root_may_touch(m, page)),
            Question::Map(cell, page) => Reply::Mapping(mapping::mapping_of(m, cell, page)),
            Question::Word(cell, word) => Reply::Word(comm_region::region_word(m, cell, word)),
            Question::Byte(cell, offset) => Reply::Byte(comm_region::region_byte(m, cell, offset)),
            Question::Leaf(leaf, passed) => Reply::Leaf(detection::cpuid(leaf, passed)),
            Question::Count(set) => Reply::Count(cpu_set::count(set) as u64),
            Question::Free(set) => {
                Reply::Count(id_set::free_id(set).unwrap_or(MAX_CELLS) as u64)
            }
        }
    }
}
