// The vocabulary that every layer shares: the return codes, and in specs/ the words of the
// definitions, "all", "some", a part of a list and "the first rule that holds", with their laws.
#![tactic(auto)]

ghost use Rattle.std.specs.Prelude.{◌≡◌};
ghost use Rattle.base.specs.Codes.{number_of, code_of, FromErrno};

// The return codes, by their names in the interface text; -38 by Linux's.
pub const EPERM: i32 = -1;

pub const ENOENT: i32 = -2;

pub const E2BIG: i32 = -7;

pub const ENOMEM: i32 = -12;

pub const EBUSY: i32 = -16;

pub const EEXIST: i32 = -17;

pub const EINVAL: i32 = -22;

pub const ERANGE: i32 = -34;

pub const ENOSYS: i32 = -38;

// Why a call or a start is refused: a return code, by what its name stands for.
#[derive(Clone, Copy, PartialEq, Eq)]
pub enum Errno {
    NotPermitted,
    NoEntry,
    TooBig,
    NoMemory,
    Busy,
    Exists,
    Invalid,
    OutOfRange,
    NoSuchCall,
}

impl From<Errno> for i32 {
    ghost from_gives = { FromErrno };

    // The return code.
    fn from(why: Errno) -> i32 {
        match why {
            Errno::NotPermitted => EPERM,
            Errno::NoEntry => ENOENT,
            Errno::TooBig => E2BIG,
            Errno::NoMemory => ENOMEM,
            Errno::Busy => EBUSY,
            Errno::Exists => EEXIST,
            Errno::Invalid => EINVAL,
            Errno::OutOfRange => ERANGE,
            Errno::NoSuchCall => ENOSYS,
        }
    }
}

// The return code of what may be refused: 0 where it is not.
pub fn code_of(answer: Result<(), Errno>) -> i32
    ensures { result ≡ code_of answer }
{
    match answer {
        Ok(()) => 0,
        Err(why) => i32::from(why),
    }
}
