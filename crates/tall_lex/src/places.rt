//! Lines and places of bytes.
ghost use Rattle.std.specs.Prelude.{◌≡◌, ◌+◌, ◌<◌, ◌≤◌, ◌^◌, length};
ghost use Rattle.tall_lex.specs.Places.{beginning, behind, past};

use crate::bytes::is_space;
use crate::tokens::LexFault;

/// Where a byte stands.
#[derive(Clone, Copy)]
pub(crate) struct Spot {
    /// The line, from 1.
    pub(crate) line: u32,
    /// The place in the line, from 1.
    pub(crate) place: u32,
    /// Do only blanks stand before it in the line?
    pub(crate) bare: bool,
}

impl Spot {
    /// The first byte of a script.
    pub(crate) fn beginning() -> Self
        ensures { result ≡ beginning }
    {
        Spot {
            line: 1,
            place: 1,
            bare: true,
        }
    }

    /// The spot behind a byte that stands here.
    fn behind(self, byte: u8) -> Self
        requires line { self.line + 1 < 2 ^ 32 }
        requires place { self.place + 1 < 2 ^ 32 }
        ensures { result ≡ behind self byte }
    {
        if byte == b'\n' {
            Spot {
                line: self.line + 1,
                place: 1,
                bare: true,
            }
        } else {
            Spot {
                line: self.line,
                place: self.place + 1,
                bare: self.bare && is_space(byte),
            }
        }
    }

    /// The spot behind a text that stands here.
    pub(crate) fn past(self, text: &[u8]) -> Self
        requires line { self.line + length text.now < 2 ^ 32 }
        requires place { self.place + length text.now < 2 ^ 32 }
        requires counted { 0 < self.place }
        ensures after { result ≡ past self text.now }
        ensures line { result.line ≤ self.line + length text.now }
        ensures place { result.place ≤ self.place + length text.now }
        ensures counted { 0 < result.place }
    {
        let mut spot = self;
        for byte in text {
            spot = spot.behind(*byte);
        }
        spot
    }

    /// The refusal of a script whose first bad token begins here.
    pub(crate) fn refusal(self) -> LexFault
        ensures { result ≡ LexFault.BadToken self.line self.place }
    {
        LexFault::BadToken {
            line: self.line,
            place: self.place,
        }
    }
}
