//! The command line of `trac lsp`, carried out.

use crate::{MIB, not_understood, shown};
use std::alloc::Global;
use std::process::ExitCode;
use trac_language_server::{Finish, Linter, Server, serve};
use trac_lint::{Settings, Sources, lint, mentions, prints_alike};
use trac_memory::{Limited, limit_in};
use trac_mentions::Mentions;
use trac_rules::width::Width;
use trac_streams::{Ending, say};
use trac_words::help::VERSION;

// What `--help` says.
const HELP: &str = "\
Usage: trac lsp [OPTION]

Speaks the Language Server Protocol with an editor over standard input and output. As a program is typed, it says where
it does what is seldom meant, what primitives and forms do, and where forms are defined and used. For that the program
is run, by 1000000 steps at most; what it prints is thrown away, and it reads nothing else.

  --stdio        the same; some editors say it
  -h, --help     show this
  -V, --version  show the version

Status 0: the editor asked for the end. 1: it went away. 5 to 7: no memory, or a stream failed.
";

// What is said of other words.
const NOT_UNDERSTOOD: &str = "trac lsp: it takes no words; --help says more\n";

// How a program is looked through as it is typed: by so many steps, of which these bytes are kept to go back over.
const SETTINGS: Settings = Settings {
    steps: 1_000_000,
    keep: 64 * MIB,
    decimals: Width::W128,
};

// Names of forms are followed back over so many steps in all at most.
const WAYS: u64 = 5_000_000;

// Looks through programs within a limit on memory.
#[derive(Drop)]
struct Limiting<'m> {
    memory: &'m Limited<Global>,
}

impl Linter for Limiting<'_> {
    fn lint_into(&self, text: &[u8], lines: &mut Vec<u8>) {
        let sources = Sources {
            name: b"",
            input_name: b"",
            tape: text,
            len: text.len(),
        };
        lint(self.memory, sources, lines, SETTINGS);
    }

    fn mentions(&self, alloc: Global, text: &[u8]) -> Mentions {
        mentions(self.memory, alloc, text, SETTINGS, WAYS)
    }

    fn prints_alike(&self, one: &[u8], other: &[u8]) -> bool {
        prints_alike(self.memory, one, other, SETTINGS)
    }
}

/// Serves an editor, if no word follows, or the one that editors give a server for these streams.
pub(crate) fn serve_by(rt: &HostRuntime, words: &[&str]) -> ExitCode {
    match words {
        [] => serve_all(rt),
        [word] if *word == "--stdio" => serve_all(rt),
        [word] if *word == "--help" || *word == "-h" => shown(rt, HELP),
        [word] if *word == "--version" || *word == "-V" => version(rt),
        _ => not_understood(rt, NOT_UNDERSTOOD),
    }
}

// Shows the version.
fn version(rt: &HostRuntime) -> ExitCode {
    match print!(rt; "trac {VERSION}\n") {
        Ok(()) => ExitCode::SUCCESS,
        Err(_) => say(rt, Ending::Write),
    }
}

// Serves an editor on the standard streams.
fn serve_all(rt: &HostRuntime) -> ExitCode {
    let memory = Limited::new(rt.alloc(), limit_in(rt, None));
    let linter = Limiting { memory: &memory };
    let mut server = Server::new(rt.alloc(), &linter);
    match serve(rt.alloc(), &mut server, &mut rt.stdin(), &mut rt.stdout()) {
        Finish::Asked => ExitCode::SUCCESS,
        Finish::Unasked => ExitCode::FAILURE,
        Finish::Failed(ending) => say(rt, ending),
    }
}
