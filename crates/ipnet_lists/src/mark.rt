//! The start of an input, which may be a byte order mark.
ghost use Rattle.std.specs.Prelude.{◌≡◌, [], IfOk};
ghost use Rattle.ipnet_text.specs.Window.{held};
ghost use Rattle.ipnet_lists.specs.Lists.{after_mark};
ghost use Rattle.ipnet_lists.specs.Marks.{IsPastMark};

use ipnet_text::{ReadError, Window};
use std::io::Read;

/// Bounds the loops over reads, so that they provably end.
pub const MOST_READS: u64 = u64::MAX;

/// The byte order mark in UTF-8.
const BYTE_ORDER_MARK: [u8; 3] = [0xEF, 0xBB, 0xBF];

/// Returns the bytes without a byte order mark at their start.
///
/// ```text
/// of "\u{feff}10.0.0.1": "10.0.0.1"
/// ```
pub fn skip_mark(bytes: &[u8]) -> &[u8]
    ensures { result.now ≡ after_mark bytes.now }
{
    if bytes.starts_with(&BYTE_ORDER_MARK) {
        &bytes[BYTE_ORDER_MARK.len()..]
    } else {
        bytes
    }
}

/// Reads the start of an input into a window that holds nothing, and returns whether more bytes may come.
///
/// A byte order mark at the start is discarded. If the input has three bytes or more, the window gets at least three of
/// them, from which the mark is then discarded. Fails if a read fails.
///
/// ```text
/// a reader of "\u{feff}10.0.0.1\n", all at once: true, and the window holds "10.0.0.1\n"
/// a reader of "":                               false, and the window holds nothing
/// ```
pub fn begin_input<R: Read>(window: &mut Window, input: &mut R) -> Result<bool, ReadError>
    requires { held window.old ≡ [] }
    ensures { IfOk result (λ more. IsPastMark more (R.remaining input.old) (R.remaining input.new) window.new) }
{
    let mut more = true;
    for _ in 0..MOST_READS {
        let held = window.held();
        if BYTE_ORDER_MARK.len() <= held.len() || !more {
            if held.starts_with(&BYTE_ORDER_MARK) {
                window.take(BYTE_ORDER_MARK.len());
            }
            return Ok(more);
        }
        more = window.fill(input)?;
    }
    Err(ReadError)
}
