//! The number of a line of a file and its contents, as some results have them.
ghost use Rattle.std.specs.Prelude.{◌≡◌, ◌++◌, OnOk, codes, decimal};

use std::alloc::AllocError;

/// Appends the number of a line, and its contents. Fails if memory runs out.
///
/// ```text
/// line 4, "10.0.1.192/26": "line 4: 10.0.1.192/26"
/// ```
pub fn push_numbered(text: &mut Vec<u8>, number: usize, line: &[u8]) -> Result<(), AllocError>
    ensures { OnOk result (text.new.items
        ≡ text.old.items ++ (codes "line " ++ decimal number ++ codes ": " ++ line.now)) }
{
    let mut start = String::new(*text.allocator());
    write!(start, "line {number}: ")?;
    text.extend_from_slice(start.as_bytes())?;
    text.extend_from_slice(line)
}
