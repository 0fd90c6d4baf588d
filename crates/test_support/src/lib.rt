// What the test programs share: words and numbers of a text, records by name, the bytes of a log's line,
// and the line of a script that is printed with its answer. No other crate uses it.
//
// No heap, as everywhere in the project: texts lie in fixed memory, and what has no room is left out.
#![tactic(auto)]

pub mod cases;
pub mod console;
pub mod expand;
pub mod names;
pub mod records;
pub mod text;
pub mod words;
