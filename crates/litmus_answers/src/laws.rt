//! What holds of all blocks.
ghost use Rattle.litmus_answers.specs.Laws.{BlocksReadBack};

/// What `put_block` makes of a report, `entries_of` reads as that report's states and answer.
pub fn blocks_read_back()
    ensures { BlocksReadBack }
{}
