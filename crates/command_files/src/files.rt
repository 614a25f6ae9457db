//! Where the program's files come from, and where it makes one.

ghost use Rattle.std.specs.Prelude.{◌≡◌, ◌≢◌, ℕ, IfOk, List, None, OnOk, Option, true};
ghost use Rattle.command_files.specs.Contents.{IsUnread, HoldsBytes};

use std::io::{self, Read};

/// Files by their names: those of the system, or some that are kept in memory.
pub trait Files {
    type Reader: Read + Drop;

    // The bytes of the file of each name, where they are known.
    ghost held: { Self → List ℕ → Option (List ℕ) } = { λ _ _. None };

    // Which names are known to be of one file.
    ghost are_one: { List ℕ → List ℕ → Type 0 } = { λ one other. one ≡ other };

    /// Opens a file for reading.
    fn open(&mut self, name: &str) -> io::Result<Self::Reader>
        ensures reader { IfOk result (λ reader. IsUnread (held self.old name.now) (Self.Reader.remaining reader)) }
        ensures stays { held self.new ≡ held self.old };

    /// Whether the two names are of one file, as far as that can be told.
    fn are_same(&mut self, one: &str, other: &str) -> bool
        ensures told { are_one one.now other.now → result ≡ true }
        ensures stays { held self.new ≡ held self.old };

    /// Whether standard output goes into the file of this name, as far as that can be told.
    fn is_output(&mut self, _name: &str) -> bool
        ensures stays { held self.new ≡ held self.old }
    {
        false
    }

    /// Makes a file of these bytes, in place of the one that has the name.
    fn write(&mut self, name: &str, bytes: &[u8]) -> io::Result<()>
        ensures written { OnOk result (HoldsBytes (held self.new) name.now bytes.now) }
        ensures others { (other : List ℕ) → other ≢ name.now → held self.new other ≡ held self.old other };

    /// Tells why a file of this name can't be made, as far as that shows before it is written.
    fn check_writable(&mut self, _name: &str) -> io::Result<()>
        ensures stays { held self.new ≡ held self.old }
    {
        Ok(())
    }

    /// Is told, in words of one line, what a user may want to know of a file beside the fault.
    fn remark(&mut self, _remark: String)
        ensures stays { held self.new ≡ held self.old }
    {}
}
