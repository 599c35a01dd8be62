//! What a theorem cites.

ghost use Rattle.mm_laws.specs.Laws.Citations.{EachLabelIsCited, EssentialIsCited};

/// By all nodes of its proof, a theorem cites exactly the assertions whose labels the nodes have.
/// By the essential nodes it cites nothing that it doesn't cite by all.
pub fn essential_citations_are_citations()
    ensures each_label_is_cited { EachLabelIsCited }
    ensures essential_is_cited { EssentialIsCited }
{}
