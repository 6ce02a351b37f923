//! The words of a line.
ghost use Rattle.std.specs.Prelude.{◌≡◌, ◌<◌, ◌≤◌, ◌++◌, ◌∷◌, ℕ, [], length, slice_index, true, false, IfSome, IfNone};
ghost use Rattle.netset_words.specs.Words.{cuts, words_of};
ghost use Rattle.netset_words.specs.WordSteps.{word_of};

// Whether each byte cuts a line into words. A table, because most bytes of a text are looked up once.
static CUTS: [bool; 256] = [
    true, true, true, true, true, true, true, true, true, true, true, true, true, true, true, true,
    true, true, true, true, true, true, true, true, true, true, true, true, true, true, true, true,
    true, false, true, true, false, true, true, true, true, true, false, false, true, false, false,
    false, false, false, false, false, false, false, false, false, false, false, false, true, true,
    true, true, true, false, false, false, false, false, false, false, false, false, false, false,
    false, false, false, false, false, false, false, false, false, false, false, false, false,
    false, false, false, true, true, true, false, false, true, false, false, false, false, false,
    false, false, false, false, false, false, false, false, false, false, false, false, false,
    false, false, false, false, false, false, false, false, true, true, true, false, true, true,
    true, true, true, true, true, true, true, true, true, true, true, true, true, true, true, true,
    true, true, true, true, true, true, true, true, true, true, true, true, true, true, true, true,
    true, true, true, true, true, true, true, true, true, true, true, true, true, true, true, true,
    true, true, true, true, true, true, true, true, true, true, true, true, true, true, true, true,
    true, true, true, true, true, true, true, true, true, true, true, true, true, true, true, true,
    true, true, true, true, true, true, true, true, true, true, true, true, true, true, true, true,
    true, true, true, true, true, true, true, true, true, true, true, true, true, true, true, true,
    true, true, true, true, true, true, true, true, true, true, true, true, true, true, true,
];

/// Whether the byte cuts a line into words.
#[inline]
pub(crate) fn is_cut(byte: u8) -> bool
    ensures { result ≡ cuts byte }
{
    CUTS[byte as usize]
}

/// The number of bytes before the first byte that does not cut.
#[inline]
fn gap_len(bytes: &[u8]) -> usize
    ensures cut { (k : ℕ) → k < result → cuts (slice_index bytes.now k) ≡ true }
    ensures next { result < length bytes.now → cuts (slice_index bytes.now result) ≡ false }
    ensures within { result ≤ length bytes.now }
{
    for index in 0..bytes.len() {
        if !is_cut(bytes[index]) {
            return index;
        }
    }
    bytes.len()
}

/// The number of bytes before the first byte that cuts.
#[inline]
pub(crate) fn word_len(bytes: &[u8]) -> usize
    ensures word { (k : ℕ) → k < result → cuts (slice_index bytes.now k) ≡ false }
    ensures next { result < length bytes.now → cuts (slice_index bytes.now result) ≡ true }
    ensures within { result ≤ length bytes.now }
{
    for index in 0..bytes.len() {
        if is_cut(bytes[index]) {
            return index;
        }
    }
    bytes.len()
}

/// The first word of bytes, what is before it, and what follows.
#[derive(Clone, Copy)]
pub(crate) struct NextWord<'a> {
    /// The bytes before it, all of which cut.
    pub(crate) before: &'a [u8],
    pub(crate) text: &'a [u8],
    /// The bytes after it.
    pub(crate) after: &'a [u8],
}

/// Returns the first word of the bytes, or `None` if they have none.
#[inline]
pub(crate) fn next_word(bytes: &[u8]) -> Option<NextWord<'_>>
    ensures words { IfSome result (λ w. words_of bytes.now ≡ word_of w ∷ words_of w.after.now) }
    ensures spelled { IfSome result (λ w. bytes.now ≡ w.before.now ++ (w.text.now ++ w.after.now)) }
    ensures shorter { IfSome result (λ w. length w.after.now < length bytes.now) }
    ensures none { IfNone result (words_of bytes.now ≡ []) }
{
    let gap = gap_len(bytes);
    let rest = &bytes[gap..];
    if rest.is_empty() {
        return None;
    }
    let len = word_len(rest);
    Some(NextWord {
        before: &bytes[..gap],
        text: &rest[..len],
        after: &rest[len..],
    })
}
