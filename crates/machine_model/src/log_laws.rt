//! Laws of the message log, each the contract of a function that does nothing.
ghost use Rattle.machine_model.specs.Laws.{LogLawfulAlways};
ghost use Rattle.machine_model.specs.LogLaws.{SumsAgree};

/// Whatever events come in whatever order, the log is lawful: each queue is in order, and each message
/// is sent where it may be, a Probe only while its line has no Probe to the hart and no Grant open, and
/// a Grant only as the answer of the hart's Acquire, with data where the hart lacks it, while nobody is
/// probed and no Grant of the line is open.
pub fn log_lawful_always()
    ensures { LogLawfulAlways }
{}

/// In a lawful log, whether a line's Probes are answered, and its Grants, can be told from the numbers of
/// all harts together: they agree exactly where those of every hart do.
pub fn sums_agree()
    ensures { SumsAgree }
{}
