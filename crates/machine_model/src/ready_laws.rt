//! Laws that a machine of fixed widths and rooms rests on, each the contract of a function that does
//! nothing.
ghost use Rattle.machine_model.specs.Ready.{ReadyAlways, SoundAlways};

/// Whatever events come in whatever order, everything is as large as the image and the configuration
/// say, the lines of waiting messages lie in memory, and counts and lists are within their limits.
pub fn sound_always()
    ensures { SoundAlways }
{}

/// Whatever events come in whatever order, each act that a good event comes to below the limits finds
/// what it rests on, and room for what it sends.
pub fn ready_always()
    ensures { ReadyAlways }
{}
