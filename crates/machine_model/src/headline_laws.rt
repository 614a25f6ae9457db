//! Laws of whole runs: the atomicity axiom, and what it completes, each the contract of a function that
//! does nothing.
ghost use Rattle.machine_model.specs.HeadlineLaws.{AtomicityAlways};
ghost use Rattle.machine_model.specs.Laws.{Headline, LegalAlways};

/// Whatever events come in whatever order, the completed order keeps the atomicity axiom: no other
/// hart's store comes between what an LR returned and the SC paired with it.
pub fn atomicity_always()
    ensures { AtomicityAlways }
{}

/// Whatever events come in whatever order, the completed order begins with the performed order, has
/// each operation once, and is legal under the configured model.
pub fn legal_always()
    ensures { LegalAlways }
{}

/// Whatever events come in whatever order, the machine is coherent, each hart's list is a run of the
/// loaded program, and all lists together have one legal global memory order.
pub fn headline()
    ensures { Headline }
{}
