//! The texts of help: where a program comes from, the debugger's commands, what each exit status says, and tips
//! for mistakes that are often made.

/// What `--version` shows after the program's name: the program's version, and the logic in which it is proved, as the
/// end of what `rt version` prints. No crate can ask for that line, so it is written here, and `tests/test_endings.py`
/// compares the two: with another logic this text is changed too.
pub const VERSION: &str = "1.7.0 (logic dac8208d650f15bf)";

/// What stands at the end of the help of `trac`.
pub const USE: &str = "\
Examples:
  trac run < FILE                   runs the program in FILE
  printf \"#(ps,Hello)'\" | trac run  runs a program that another command prints
  trac walk FILE                    the debugger for a terminal
  trac page FILE > run.html         makes a page that plays a run
  trac debug FILE                   the debugger for scripts
  trac help run, trac help debug    say more; so do trac walk --help and trac page --help

Exit status:
  0    the program or the commands have ended, or help or the version is shown
  2    the command line is not understood
  3    the budget of steps is spent, or the debugger was given too many lines
  4    a limit is passed, such as how long a text or FILE may be
  5    there is no memory
  6    standard input or FILE cannot be read
  7    the output cannot be written
  8    a command of the debugger is not understood
  70   ./trac of a checkout has no program to run
  130  Ctrl-C was typed";

/// How `trac run` is used, in one line.
pub const RUN_USAGE: &str = "trac run [OPTIONS] < FILE";

/// What stands at the end of the help of `trac run`.
pub const RUN_USE: &str = "\
The program is read from standard input: put < before the name of its file.
  trac run < FILE
  printf \"#(ps,Hello)'\" | trac run

A program is one text or more, each ended by '. At a terminal a text is run once ' and Enter are
typed. Enter and then Ctrl-D end the input, and with it the run; Ctrl-C ends the run at once.

Exit status: 0 at the end; 2 the command line is not understood; 3 the budget of steps is spent;
4 a limit is passed; 5 no memory; 6 the input cannot be read; 7 the output cannot be written;
70 ./trac of a checkout has no program to run; 130 Ctrl-C was typed.";

/// What stands at the end of the help of `trac debug`.
pub const DEBUG_USE: &str = "\
This debugger is made for scripts; trac walk FILE is the one for a terminal.

FILE holds the program, and after it all that the program reads. Commands are read from standard
input, one a line:
  s COUNT       COUNT steps forward
  b COUNT       COUNT steps back
  u NAME COUNT  forward to a call of NAME, by COUNT steps at most
  r NAME        back to a call of NAME
  p             show the state
  c             show what was printed and no c has shown yet, and forget all steps so far
  c COUNT       forget all steps but the last COUNT, and show what was printed before these
  q             end

There is no prompt. NAME is what stands first in the call: #(cl,F) is met as cl, and not as F.

Exit status: 0 at the end; 2 the command line is not understood; 3 more than 1048576 lines;
4 FILE is too long; 5 no memory; 6 FILE or the commands cannot be read; 7 the output cannot be
written; 8 a command is not understood; 70 ./trac of a checkout has no program to run;
130 Ctrl-C was typed.";

/// How `trac walk` is used, in one line.
pub const WALK_USAGE: &str = "trac walk [OPTIONS] <FILE>";

/// What stands at the end of the help of `trac walk`.
pub const WALK_USE: &str = "\
FILE holds the program, and after it what the program reads; more can be typed in the walk.
Commands are read from standard input, one a line, and each gets its reply at once: h lists them,
and q, or Ctrl-D, ends.

Exit status: 0 at the end; 2 the command line is not understood; 4 FILE is too long; 5 no memory;
6 FILE or the commands cannot be read; 7 the output cannot be written; 70 ./trac of a checkout has
no program to run; 130 Ctrl-C was typed.";

/// How `trac lint` is used, in one line.
pub const LINT_USAGE: &str = "trac lint [OPTIONS] <FILE>...";

/// What stands at the end of the help of `trac lint`.
pub const LINT_USE: &str = "\
What a program prints is thrown away. Each doubt is told once for each place, as
  FILE:3:5: no primitive is named pr (step 124)
which is line 3, column 5; trac walk FILE shows that step by g 124.

Exit status: 0 no doubt; 1 some doubts; 2 the command line is not understood, a file cannot be read
or is too long, no memory, or the output cannot be written; 70 ./trac of a checkout has no
program to run; 130 Ctrl-C was typed. If a program is stopped before its end, standard error says so.";

/// The tip for a word that `trac` or `trac run` does not understand: a file is often named there.
pub const RUN_TIP: &str = "to run the program in FILE, put < before its name: trac run < FILE";

/// The tips for words that stand where a subcommand should, and are none.
pub const WALK_TIP: &str = "to walk through the program in FILE at a terminal: trac walk FILE";

pub const PAGE_TIP: &str =
    "to make a page that runs the program in FILE: trac page FILE > run.html";

pub const VERSION_TIP: &str = "the version is shown by: trac --version";

/// The tip for a debugger that is given the option of `trac run`.
pub const BUDGET_TIP: &str =
    "--budget is an option of trac run; here the commands say how far to go";

/// The text for a line without a subcommand.
pub const NO_SUBCOMMAND: &str = "\
error: 'trac' requires a subcommand but one was not provided

For more information, try '--help'.
";

/// The text for a line whose words, as they are shown, would be understood. There is none.
pub const NO_WORDS: &str = "error: the command line is not understood\n";

/// The text for a word that is not UTF-8.
pub const NOT_TEXT: &str = "\
error: invalid UTF-8 was detected in one or more arguments

  tip: have the shell open such a file: trac run < FILE, trac debug /dev/fd/3 3< FILE,
       trac walk /dev/fd/3 3< FILE, or trac lint /dev/fd/3 3< FILE
";
