//! The processor as one library: sessions, which go forward and back; bytes followed to where they come from; whole
//! runs, the debugger and the command line, as the program `trac` has them; and the parts below: machines and their
//! records, plans of calls, forms, numbers, and lists with two ends.
#![tactic(auto)]

pub use trac_debug::debug;
pub use trac_follow::{End, Followed, Place, Source, Traced, Witness, follow, trace};
pub use trac_forms::{Cut, CutGap, FormError, Piece};
pub use trac_gap::{GapBuf, GapError, PlainEnds, SlidingBuf, TwoEnds};
pub use trac_num::{
    NumError, Tail, add, complement, div, greater, meet, mul, octal_tail, print_into, read_tail,
    rotate, shift, sub, union, value,
};
pub use trac_prims::{
    Change, Deed, Effect, LaterArguments, Made, Mark, Now, Tape, UnnamedChange, after, plan,
    plan_into,
};
pub use trac_rules::limit::JOURNAL_LIMIT;
pub use trac_run::run;
pub use trac_session::{
    Args, Block, Command, Form, Goal, Item, Kind, Machine, Refusal, Replies, Reply, Return,
    Session, Store, Texts, Walk, Width,
};
pub use trac_step::{Core, Journal, Parts, Pieces, PiecesRef, Record, Undone};
pub use trac_streams::{BUDGET_LIMIT, DEFAULT_BUDGET, Ending, Options};
pub use trac_words::words::{DEFAULT_JOURNAL, Line, read_line};
