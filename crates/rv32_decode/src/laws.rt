//! Laws of the instruction table, each the contract of a function that does nothing.
ghost use Rattle.rv32_decode.specs.Laws.{RowsAreApart};

/// No word is in two rows of the table.
pub fn rows_are_apart()
    ensures { RowsAreApart }
{}
