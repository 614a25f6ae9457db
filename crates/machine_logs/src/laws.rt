//! Laws of whole runs, each the contract of a function that does nothing.
ghost use Rattle.machine_logs.specs.Laws.{LogTellsState, MessagesLawfulAlways};

/// Whatever events come in whatever order, each message of the log keeps all rules of the lawful log and of the
/// coherent log, whether memory at the start is known or not.
pub fn messages_lawful_always()
    ensures { MessagesLawfulAlways }
{}

/// Whatever events come in whatever order, the permission that a hart has by the log is that of its cache's copy, what
/// the manager knows by the log is what it notes, and the bytes that the log brought last are memory's.
pub fn log_tells_state()
    ensures { LogTellsState }
{}
