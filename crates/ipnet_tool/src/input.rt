//! The networks of a reader's lines, without keeping its text.
//!
//! The text is read into a window. All whole lines in it are taken at once, and the rest, the front of a line, is
//! kept for the next read. Lines end at a byte that is never part of another character, so the text is UTF-8 if and
//! only if each of these pieces is.
ghost use Rattle.std.specs.Prelude.{◌≡◌, ◌≢◌, ℕ, ◌+◌, ◌<◌, ◌≤◌, ◌⊎◌, List, ◌++◌, length, take, IfOk, IfErr, Err};
ghost use Rattle.std.specs.Prelude.{slice_index, true, false};
ghost use Rattle.std.specs.Io.KnownBytes.{Keeps};
ghost use Rattle.ipnet.specs.Lines.{lines_of};
ghost use Rattle.ipnet_text.specs.NetLists.{networks_of};
ghost use Rattle.ipnet_text.specs.Window.{held};
ghost use Rattle.ipnet_text.specs.Inputs.{GaveWhole};
ghost use Rattle.ipnet_tool.specs.Reading.{AreReadFrom, IsBadLineFrom, IsTextLeft, IsNoTextLeft};
ghost use Rattle.ipnet_tool.specs.Reading.{IsNoTextFrom, TakesMemoryFrom};
ghost use Rattle.ipnet_tool.specs.declared.failure.Failure.TheVariants.{Arguments, Unreadable, NotUtf8, Line};
ghost use Rattle.ipnet_tool.specs.declared.failure.Failure.TheVariants.{Memory, Unwritable};

use crate::failure::Failure;
use ipnet::Grammar;
use ipnet_text::window::SIZE;
use ipnet_text::{NetLists, ToolError, Window, lines_len, push_lines};
use std::alloc::Global;
use std::io::Read;
use std::str;

/// Bounds the loop, so that it provably ends. Even if every read were full, the count of lines would not overflow.
const MOST_COUNTED_READS: u64 = 0x0000_ffff_ffff_ffff;

/// The longest front of a character that is not whole.
const LONGEST_FRONT: usize = 3;

/// The networks that the lines of the reader write, up to its end.
///
/// A failed read is reported before all else, and input that is not UTF-8 before a bad line. So after the first bad
/// line the rest is read without being kept. A line that fills the window is longer than any network's text.
pub(crate) fn read_networks<R: Read>(
    alloc: Global,
    input: &mut R,
    grammar: Grammar,
) -> Result<NetLists, Failure>
    ensures networks { IfOk result (λ families.
        AreReadFrom grammar (R.remaining input.old) (R.remaining input.new) (networks_of families)) }
    ensures bad_line { (number : ℕ) → result ≡ Err (Failure.Line number)
        → IsBadLineFrom grammar (R.remaining input.old) (R.remaining input.new) number }
    ensures not_utf8 { result ≡ Err NotUtf8 → IsNoTextFrom (R.remaining input.old) (R.remaining input.new) }
    ensures memory { result ≡ Err Memory → Keeps (R.remaining input.old) (R.remaining input.new)
        ⊎ TakesMemoryFrom grammar (R.remaining input.old) (R.remaining input.new) }
    ensures failure { IfErr result (λ failure. (failure ≢ Arguments) × (failure ≢ Unwritable)) }
{
    let mut window = Window::new(alloc)?;
    let mut families = NetLists::new(alloc);
    let mut number = 0;
    for _ in 0..MOST_COUNTED_READS {
        let more = window.fill(input)?;
        let held = window.held();
        let count = lines_len(held, more);
        let Ok(text) = str::from_utf8(&held[..count]) else {
            if more {
                return Err(after_bad_bytes(&mut window, input));
            }
            return Err(Failure::NotUtf8);
        };
        let result = push_lines(&mut families, number, text, grammar);
        window.take(count);
        match result {
            Ok(lines) => number = lines,
            Err(error) => {
                let ToolError::Line(bad) = error else {
                    return Err(Failure::Memory);
                };
                if more {
                    return Err(after_bad_line(&mut window, input, bad));
                }
                return Err(Failure::Line(bad));
            }
        }
        if !more {
            return Ok(families);
        }
        if window.held().len() == SIZE {
            return Err(after_bad_line(&mut window, input, number + 1));
        }
    }
    Err(Failure::Unreadable)
}

/// The failure to report if line `number` is bad. The rest of the input is read, and must be UTF-8.
fn after_bad_line<R: Read>(window: &mut Window, input: &mut R, number: usize) -> Failure
    ensures line { (line : ℕ) → result ≡ Failure.Line line → (line ≡ number)
        × IsTextLeft (held window.old) (R.remaining input.old) (R.remaining input.new) }
    ensures not_utf8 { result ≡ NotUtf8
        → IsNoTextLeft (held window.old) (R.remaining input.old) (R.remaining input.new) }
    ensures failure { (result ≡ Failure.Line number) ⊎ (result ≡ NotUtf8) ⊎ (result ≡ Unreadable) }
{
    for _ in 0..u64::MAX {
        let count = match str::from_utf8(window.held()) {
            Ok(text) => text.len(),
            Err(error) => error.valid_up_to(),
        };
        window.take(count);
        if LONGEST_FRONT < window.held().len() {
            return after_bad_bytes(window, input);
        }
        match window.fill(input) {
            Ok(true) => {}
            Ok(false) if str::from_utf8(window.held()).is_ok() => return Failure::Line(number),
            Ok(false) => return Failure::NotUtf8,
            Err(error) => return Failure::from(error),
        }
    }
    Failure::Unreadable
}

/// The failure to report if the input is not UTF-8. The rest is read, because a failed read is reported first.
fn after_bad_bytes<R: Read>(window: &mut Window, input: &mut R) -> Failure
    ensures whole { result ≡ NotUtf8
        → (more : List ℕ) × GaveWhole (R.remaining input.old) (R.remaining input.new) more }
    ensures failure { (result ≡ NotUtf8) ⊎ (result ≡ Unreadable) }
{
    for _ in 0..u64::MAX {
        let count = window.held().len();
        window.take(count);
        match window.fill(input) {
            Ok(true) => {}
            Ok(false) => return Failure::NotUtf8,
            Err(error) => return Failure::from(error),
        }
    }
    Failure::Unreadable
}
