//! The command line of `trac dap`, carried out.

use crate::{not_understood, shown};
use std::alloc::Global;
use std::process::ExitCode;
use trac_debug_adapter::{Adapter, Finish, Programs, serve};
use trac_memory::{Limited, limit_in, tape_in};
use trac_streams::{Ending, say};

// What `--help` says.
const HELP: &str = "\
Usage: trac dap

Speaks the Debug Adapter Protocol with an editor over standard input and output: the editor steps through a program,
forwards and backwards.

Status 0: the editor asked for the end. 1: it went away. 5 to 7: no memory, or a stream failed.
";

// What is said of other words.
const NOT_UNDERSTOOD: &str = "trac dap: it takes no words; --help says more\n";

// The programs in files, read within a limit on memory.
#[derive(Drop)]
struct Files<'m> {
    rt: &'m HostRuntime,
    memory: &'m Limited<Global>,
}

impl<'m> Programs<&'m Limited<Global>> for Files<'m> {
    fn read(&self, path: &str) -> Result<Vec<u8, &'m Limited<Global>>, Ending> {
        tape_in(self.rt, self.memory, path)
    }
}

/// Serves an editor, if no word follows.
pub(crate) fn debug_by(rt: &HostRuntime, words: &[&str]) -> ExitCode {
    match words {
        [] => debug_all(rt),
        [word] if *word == "--help" || *word == "-h" => shown(rt, HELP),
        _ => not_understood(rt, NOT_UNDERSTOOD),
    }
}

// Serves an editor on the standard streams.
fn debug_all(rt: &HostRuntime) -> ExitCode {
    let memory = Limited::new(rt.alloc(), limit_in(rt, None));
    let files = Files {
        rt,
        memory: &memory,
    };
    let mut adapter = Adapter::new(&memory, rt.alloc(), &files);
    match serve(rt.alloc(), &mut adapter, &mut rt.stdin(), &mut rt.stdout()) {
        Finish::Asked => ExitCode::SUCCESS,
        Finish::Unasked => ExitCode::FAILURE,
        Finish::Failed(ending) => say(rt, ending),
    }
}
