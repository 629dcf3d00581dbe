//! What is proved of texts. The functions do nothing: each has a law as its contract.
ghost use Rattle.netlist_text.specs.Laws.{TextsAreDecided};

/// A text is never both a netlist and refused, and never refused for causes of two kinds.
pub fn texts_are_decided()
    ensures { TextsAreDecided }
{}
