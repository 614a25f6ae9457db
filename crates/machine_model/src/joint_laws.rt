//! Laws of what copies hold and loads return, by the performed order, each the contract of a function
//! that does nothing.
ghost use Rattle.machine_model.specs.JointLaws.{LoadValuesAlways};
ghost use Rattle.machine_model.specs.Laws.{CoherentAlways};

/// Whatever events come in whatever order, where one cache may write a line no other has a copy of it,
/// and each byte of each copy is the one that was performed last.
pub fn coherent_always()
    ensures { CoherentAlways }
{}

/// Whatever events come in whatever order, the completed order keeps the load value axiom: each byte of
/// each load is what the last store wrote that the load may see.
pub fn load_values_always()
    ensures { LoadValuesAlways }
{}
