//! What the programs ask of the system: to say how they ended.
ghost use Rattle.std.specs.Prelude.{◌≡◌};
ghost use Rattle.std.specs.Process.{exit_status};
ghost use Rattle.trac_streams.specs.Endings.{status_of};

use crate::ending::Ending;
use std::process::ExitCode;

/// Says on standard error how a program ended, and returns the status for it. A print that fails changes nothing.
pub fn say(rt: &impl Eprint, ending: Ending) -> ExitCode
    ensures { exit_status result ≡ status_of ending }
{
    if ending != Ending::Ended {
        let _ = rt.eprintln(ending);
    }
    ExitCode::from(ending.status())
}
