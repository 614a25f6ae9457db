//! The status with which the process ends.
ghost use Rattle.std.specs.Prelude.{◌≡◌, ◌≢◌, IfErr, IfOk};
ghost use Rattle.std.specs.IoError.{error_kind};
ghost use Rattle.std.specs.Process.{exit_status};

use std::io::{self, ErrorKind};
use std::process::ExitCode;

/// The process's status is the program's. Where the program didn't come to one, memory was wanting, with
/// status 4, or a word of the command line was no text, with status 2.
pub fn code_of(ended: io::Result<u8>) -> ExitCode
    ensures ended { IfOk ended (λ status. exit_status result ≡ status) }
    ensures memory { IfErr ended (λ error. error_kind error ≡ ErrorKind.OutOfMemory → exit_status result ≡ 4) }
    ensures words { IfErr ended (λ error. error_kind error ≢ ErrorKind.OutOfMemory → exit_status result ≡ 2) }
{
    match ended {
        Ok(status) => ExitCode::from(status),
        Err(error) => match error.kind() {
            ErrorKind::OutOfMemory => ExitCode::from(4),
            _ => ExitCode::from(2),
        },
    }
}
