//! What holds of all instructions.
ghost use Rattle.assembly_reading.specs.Laws.{ReadsBack};

/// What `spell_assembly` spells of an instruction, without its address, reads as that instruction.
pub fn spelling_reads_back()
    ensures { ReadsBack }
{}
