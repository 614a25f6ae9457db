//! The law of the room that messages need, the contract of a function that does nothing.
ghost use Rattle.machine_model.specs.Laws.{RoomAlways};

/// Whatever events come in whatever order, no queue of a hart holds more messages than it has room for, so
/// that each push has room; a Grant on its way finds its slot, what is performed are operations, each once,
/// and a reserved word's line is one that its hart may write.
pub fn room_always()
    ensures { RoomAlways }
{}
