//! Laws of the event meaning, each the contract of a function that does nothing.
ghost use Rattle.machine_model.specs.Laws.{ChangesAreCounted, ImageAndConfigStay, LocalIsSteps, NothingIsRewritten, RunsAlways, StopsChangeStatusAlone};

/// An event only adds to the performed order, to the harts' lists and to the message log.
pub fn nothing_is_rewritten()
    ensures { NothingIsRewritten }
{}

/// No event changes the image or the configuration.
pub fn image_and_config_stay()
    ensures { ImageAndConfigStay }
{}

/// An event that changes the machine adds one to the number of changes.
pub fn changes_are_counted()
    ensures { ChangesAreCounted }
{}

/// Whatever events come in whatever order, each hart's list is a run of the loaded image, with its
/// status.
pub fn runs_always()
    ensures { RunsAlways }
{}

/// A `Local` event that retires is as many single steps of its hart, each of which retires, but for
/// the count of events, which grows by one.
pub fn local_is_steps()
    ensures { LocalIsSteps }
{}

/// A step that stops leaves registers, pc, memory, buffers, copies, lists and messages as they were: its
/// hart's status alone is another, and the count of events grows by one.
pub fn stops_change_status_alone()
    ensures { StopsChangeStatusAlone }
{}
