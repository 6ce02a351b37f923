//! Laws of maps. Nothing here does anything at run time.
ghost use Rattle.std.specs.Prelude.{◌≡◌, true};
ghost use Rattle.svg_text.specs.Documents.{nodes_text};
ghost use Rattle.svg_text.specs.Grammar.{IsContent, are_printable};
ghost use Rattle.svg_maps.specs.Pages.{PageView, page_nodes};

/// Every page is a document in the grammar of XML, and is printable ASCII and line feeds, whatever texts its labels and
/// titles have.
pub fn pages_are_documents()
    ensures xml { (view : PageView) → IsContent (nodes_text (page_nodes view)) }
    ensures printable { (view : PageView) → are_printable (nodes_text (page_nodes view)) ≡ true }
{}
