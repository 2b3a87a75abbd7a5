// The status that a program ends with.
ghost use Rattle.std.specs.Prelude.{◌≡◌};
ghost use Rattle.std.specs.Process.{exit_status};
ghost use Rattle.packed.specs.Ending.{status_of};

use std::io;
use std::process::ExitCode;

// Of a program that wrote its output, or could not. Where it could not, a line on standard error says so, and why.
pub fn status<R: Eprint>(rt: &R, program: &str, written: io::Result<()>) -> ExitCode
    ensures { exit_status result ≡ status_of written }
{
    match written {
        Ok(()) => ExitCode::SUCCESS,
        Err(why) => {
            let _ = eprintln!(rt; "{program}: cannot write standard output: {why}");
            ExitCode::FAILURE
        }
    }
}
