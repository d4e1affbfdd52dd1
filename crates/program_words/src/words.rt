//! The arguments of a program.

ghost use Rattle.std.specs.Prelude.{◌≡◌, ◌≢◌, ◌⊎◌, IfErr};
ghost use Rattle.std.specs.IoError.{error_kind};
ghost use Rattle.std.specs.declared.io.ErrorKind.TheVariants.{OutOfMemory};

use std::alloc::AllocGlobal;
use std::env::{self, Env};
use std::io;

/// The arguments after the program's name. Where they cannot be read, the exit status to end with
/// ("Exit statuses", docs/FORMAT.md): 6 where memory ran out, else 7.
///
/// Nothing is promised of which arguments there are, nor of when they cannot be read: `env::args`
/// says nothing of it.
pub fn words_of<R: Env + AllocGlobal>(rt: &R) -> Result<Vec<String>, u8>
    ensures status { IfErr result (λ status. (status ≡ 6) ⊎ (status ≡ 7)) }
{
    match read_words(rt) {
        Ok(words) => Ok(words),
        Err(error) => Err(status_of(&error)),
    }
}

fn read_words<R: Env + AllocGlobal>(rt: &R) -> io::Result<Vec<String>> {
    Ok(env::args(rt)?.skip(1).collect(rt.alloc())?)
}

// The exit status for arguments that could not be read.
fn status_of(error: &io::Error) -> u8
    ensures memory { error_kind error.now ≡ OutOfMemory → result ≡ 6 }
    ensures other { error_kind error.now ≢ OutOfMemory → result ≡ 7 }
{
    match error.kind() {
        io::ErrorKind::OutOfMemory => 6,
        _ => 7,
    }
}
