//! The words of a report for each cause.
ghost use Rattle.std.specs.Prelude.{◌≡◌, Some};
ghost use Rattle.std.specs.Fmt.{DisplaysOnOk, DisplaysStyledOnOk};

use crate::cause::Cause;
use std::error::Error;
use std::fmt;
use std::fmt::{Display, Formatter};

impl Cause {
    ghost use Rattle.ipnet_lists.specs.CauseTexts.{cause_text};

    /// Returns the words of a report for this cause.
    ///
    /// ```text
    /// LengthAbove32: "the prefix length is above 32"
    /// ```
    pub fn text(&self) -> &'static str
        ensures { result.now ≡ cause_text self.now }
    {
        match self {
            Cause::NulByte => "a NUL byte: is the file UTF-16?",
            Cause::NotUtf8 => "not UTF-8",
            Cause::CarriageReturn => "a carriage return: is the file damaged, or from an old Mac?",
            Cause::LegacyAlone => {
                "a leading zero, or a \"::\" that replaces no group: use --legacy to accept it"
            }
            Cause::LengthAbove32 => "the prefix length is above 32",
            Cause::LengthAbove128 => "the prefix length is above 128",
            Cause::EndsBeforeStart => "the range ends before it starts",
            Cause::TwoFamilies => "the range has addresses of two families",
            Cause::RangeOfNetworks => "a range of networks: write its first and its last address",
            Cause::OtherDash => {
                "a dash other than -: write - between the first and the last address"
            }
            Cause::NoLastAddress => "the range has no last address",
            Cause::WildcardMask => {
                "a wildcard mask, or a mask with gaps: write a prefix length, as in 10.0.0.0/8"
            }
            Cause::MaskAfterBlank => {
                "a mask in a second word: write a prefix length, as in 10.0.0.0/8"
            }
            Cause::TwoEntries => "two entries in a line: write one a line, or # before a comment",
            Cause::CommaFollows => "a comma after the entry: leave it out",
            Cause::SemicolonFollows => {
                "a semicolon after the entry: leave it out, or write a blank before it"
            }
            Cause::TextFollows => "text after the entry: write # before it",
            Cause::InBrackets => "brackets: leave them out",
            Cause::InQuotes => "quotation marks: leave them out",
            Cause::Excluded => "an exception: subtract it with netset difference",
            Cause::DashFirst => {
                "a - before the entry: leave it out, or apply the changes with netset apply"
            }
            Cause::HasZone => "a zone: leave out % and what follows",
            Cause::HasPort => "a port: leave out : and what follows",
            Cause::NotFourNumbers => {
                "an IPv4 address has four numbers from 0 to 255, as in 10.0.0.0/8"
            }
            Cause::HasStar => "a pattern with *: write a network, as in 10.0.0.0/8",
            Cause::AllAddresses => "all addresses: write 0.0.0.0/0 and ::/0",
            Cause::HostName => "a host name: write its addresses",
        }
    }
}

impl Display for Cause {
    ghost use Rattle.ipnet_lists.specs.CauseTexts.{cause_text};

    ghost output = { λ cause. Some (cause_text cause) };

    fn fmt<W: fmt::Write>(&self, f: &mut Formatter<W>) -> fmt::Result {
        f.write_str(self.text())
    }
}

impl Error for Cause {}
