//! Laws of escaped texts and of documents. Nothing here does anything at run time.
ghost use Rattle.std.specs.Prelude.{◌≡◌, true, ℕ, List, IsUtf8};
ghost use Rattle.svg_text.specs.Documents.{Nodes, nodes_text};
ghost use Rattle.svg_text.specs.Escapes.{escaped, IsSafeText};
ghost use Rattle.svg_text.specs.Grammar.{IsContent, are_well_formed, are_printable};

/// An escaped text is printable ASCII. Its only characters that XML reserves are `&`, each in a reference.
pub fn escaped_texts_are_safe()
    ensures { (text : List ℕ) → IsSafeText (escaped text) }
{}

/// Two texts with the same escaped text are the same.
pub fn escaped_texts_read_back()
    ensures { (one other : List ℕ) → IsUtf8 one → IsUtf8 other → escaped one ≡ escaped other → one ≡ other }
{}

/// The text of nodes is in the grammar, if no tag in them has two attributes of one name: every element is closed, and
/// all names, values and texts are as XML has them, whatever texts are in the nodes.
pub fn documents_are_xml()
    ensures { (nodes : Nodes) → are_well_formed nodes ≡ true → IsContent (nodes_text nodes) }
{}

/// The text of nodes is printable ASCII and line feeds, whatever texts are in the nodes.
pub fn documents_are_printable()
    ensures { (nodes : Nodes) → are_printable (nodes_text nodes) ≡ true }
{}
