//! The laws of texts, the contracts of functions that do nothing.
ghost use Rattle.run_chart.specs.Laws.{EscapingIsSafe, FittedTextsFit};

/// An escaped text has no byte that begins or ends a tag, or ends an attribute.
pub fn escaping_is_safe()
    ensures { EscapingIsSafe }
{}

/// A text that is cut where there is no room for it has at most as many bytes as there is room for, where that is at
/// least three.
pub fn fitted_texts_fit()
    ensures { FittedTextsFit }
{}
