//! Lines of a page: texts that are cut if they are too long for one line.

use std::alloc::{AllocError, Global};

/// The most bytes of a line, unless it is one word. Such a line fits the smallest page.
const MOST_BYTES: usize = 100;

/// Appends the piece to the line, after a blank. If both together are too long, the line is added to the lines, and the
/// piece begins the next one. Returns the line that is not added yet.
fn push_piece(
    alloc: Global,
    lines: &mut Vec<String>,
    line: String,
    piece: &str,
) -> Result<String, AllocError> {
    let mut line = line;
    if !line.is_empty() {
        if line.len().saturating_add(piece.len()) < MOST_BYTES {
            line.push_str(" ")?;
        } else {
            lines.push(line)?;
            line = String::new(alloc);
        }
    }
    line.push_str(piece)?;
    Ok(line)
}

/// Appends the words of the part to the line, each as a piece.
fn push_words(
    alloc: Global,
    lines: &mut Vec<String>,
    line: String,
    part: &str,
) -> Result<String, AllocError> {
    let mut line = line;
    for word in part.split(' ') {
        line = push_piece(alloc, lines, line, word)?;
    }
    Ok(line)
}

/// Returns the text in lines, which are cut after its parts; a part ends with the separator, whose last character is a
/// blank. A part that is longer than a line is cut at its blanks. Fails only if memory runs out.
///
/// ```text
/// of "A square is a /24. The smallest dot is a /32." after ". ", if a line has at most 30 bytes: "A square is a /24."
///     and "The smallest dot is a /32."
/// ```
pub(crate) fn lines_of(
    alloc: Global,
    text: &str,
    separator: &str,
) -> Result<Vec<String>, AllocError> {
    let mut lines = Vec::new(alloc);
    let mut line = String::new(alloc);
    for part in text.split_inclusive(separator) {
        let part = part.trim_end();
        if part.len() > MOST_BYTES {
            line = push_words(alloc, &mut lines, line, part)?;
        } else {
            line = push_piece(alloc, &mut lines, line, part)?;
        }
    }
    lines.push(line)?;
    Ok(lines)
}
