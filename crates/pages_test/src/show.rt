// Answers as text.
use detection::Leaf;
use machine_state::{Access, Mapping, Owner};
use std::fmt::{self, Display, Formatter, Write};

// What a question is answered.
#[derive(Clone, Copy)]
pub(crate) enum Reply {
    Owner(Owner),
    Truth(bool),
    Mapping(Mapping),
    Word(Option<u32>),
    Byte(Option<u8>),
    Leaf(Leaf),
    Count(u64),
}

impl Display for Reply {
    fn fmt<W: Write>(&self, f: &mut Formatter<W>) -> fmt::Result {
        match *self {
            Reply::Owner(owner) => put_owner(f, owner),
            Reply::Truth(yes) => f.write_str(if yes { "yes" } else { "no" }),
            Reply::Mapping(mapping) => put_mapping(f, mapping),
            Reply::Word(word) => put_hex(f, word.map(u64::from)),
            Reply::Byte(byte) => put_hex(f, byte.map(u64::from)),
            Reply::Leaf(leaf) => put_leaf(f, leaf),
            Reply::Count(n) => write!(f, "{n}"),
        }
    }
}

fn put_owner<W: Write>(f: &mut Formatter<W>, owner: Owner) -> fmt::Result {
    match owner {
        Owner::Hypervisor => f.write_str("hypervisor"),
        Owner::Cell(id) => write!(f, "cell {id}"),
        Owner::Shared => f.write_str("shared"),
        Owner::Root => f.write_str("root"),
        Owner::Nobody => f.write_str("nobody"),
    }
}

fn put_mapping<W: Write>(f: &mut Formatter<W>, mapping: Mapping) -> fmt::Result {
    match mapping {
        Mapping::Page(page, access) => {
            let number = page.0;
            write!(f, "page {number:#x} ")?;
            put_access(f, access)
        }
        Mapping::Comm => f.write_str("comm"),
        Mapping::Unmapped => f.write_str("nothing"),
    }
}

// The letters of the flags that are set.
fn put_access<W: Write>(f: &mut Formatter<W>, access: Access) -> fmt::Result {
    for (set, letter) in [
        (access.read, 'r'),
        (access.write, 'w'),
        (access.execute, 'x'),
    ] {
        if set {
            f.write_char(letter)?;
        }
    }
    Ok(())
}

fn put_hex<W: Write>(f: &mut Formatter<W>, number: Option<u64>) -> fmt::Result {
    match number {
        Some(n) => write!(f, "{n:#x}"),
        None => f.write_str("nothing"),
    }
}

fn put_leaf<W: Write>(f: &mut Formatter<W>, leaf: Leaf) -> fmt::Result {
    let Leaf { eax, ebx, ecx, edx } = leaf;
    write!(f, "{eax:#x} {ebx:#x} {ecx:#x} {edx:#x}")
}
