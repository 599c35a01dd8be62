//! How a call ends.

ghost use Rattle.std.specs.Prelude.{◌≡◌};
ghost use Rattle.mm_library.specs.Calls.{status_number};

/// How a call ends. C gets its number.
#[derive(Clone, Copy, PartialEq, Eq, Debug)]
pub enum Status {
    /// 0: the text has no fault, and `out` has what was requested.
    Accepted,
    /// 1: the text has a fault, and `out` has the refusal for it.
    Refused,
    /// 2: the typecode isn't UTF-8.
    TypecodeNotUtf8,
    /// 3: `out` is too short for what is to be written. It has as much as fits.
    OutTooShort,
    /// 4: the room is too small.
    RoomTooSmall,
    /// 5: the number has no bits of sections or others, or no form has it.
    NoSuchRequest,
}

impl Status {
    /// The number of the status.
    pub(crate) fn number(self) -> u32
        ensures { result ≡ status_number self }
    {
        self as u32
    }
}
