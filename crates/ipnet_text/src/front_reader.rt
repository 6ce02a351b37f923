//! Lines that are read at the front of the text, or left to the reader of texts.
ghost use Rattle.std.specs.Prelude.{IfSome};
ghost use Rattle.ipnet.specs.NetworkOf.{ip_network};
ghost use Rattle.ipnet.specs.NetworkTexts.{IsNetworkText};
ghost use Rattle.ipnet.specs.declared.parser.Grammar.TheVariants.{Strict};
ghost use Rattle.ipnet_text.specs.Fronts.{IsFirstLine};

use crate::front::{FrontLine, front_network};

/// The most lines that are left out at once.
const LONGEST_PAUSE: u8 = 63;

/// Reads lines by [`front_network`]. After lines that it cannot read, it leaves out more and more of the lines that
/// follow: similar lines often follow each other, and a vain try costs time.
#[derive(Clone, Copy)]
pub(crate) struct FrontReader {
    pause: u8,
    next_pause: u8,
}

impl FrontReader {
    /// A reader that tries the first line.
    pub(crate) fn new() -> FrontReader {
        FrontReader {
            pause: 0,
            next_pause: 0,
        }
    }

    /// The network of the first line, and the length of the line without its "\n". `None` says nothing about the line.
    #[inline]
    pub(crate) fn read(&mut self, bytes: &[u8]) -> Option<FrontLine>
        ensures { IfSome result (λ line.
            IsFirstLine (IsNetworkText Strict) bytes.now line.len (ip_network line.network)) }
    {
        if self.pause > 0 {
            self.pause -= 1;
            return None;
        }
        let line = front_network(bytes);
        if line.is_some() {
            self.next_pause = 0;
        } else {
            self.pause = self.next_pause;
            if self.next_pause < LONGEST_PAUSE {
                self.next_pause = self.next_pause * 2 + 1;
            }
        }
        line
    }
}
