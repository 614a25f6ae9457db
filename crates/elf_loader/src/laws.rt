//! What the definitions behind `load` come to, for every file.
ghost use Rattle.elf_loader.specs.Laws.{EachSegmentIsLoaded, OverlapIsCommonAddress};

/// Two segments overlap exactly where some address belongs to both.
pub fn overlap_is_a_common_address()
    ensures { OverlapIsCommonAddress }
{}

/// An accepted file's image has each segment's bytes of the file at the segment's addresses.
pub fn each_segment_is_loaded()
    ensures { EachSegmentIsLoaded }
{}
