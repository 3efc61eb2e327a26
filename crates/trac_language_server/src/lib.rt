//! The server of `trac lsp`, which speaks the Language Server Protocol, 3.17, over a reader and a writer: the doubts of
//! a program as it is typed, what a primitive does, and which forms a program defines.
#![tactic(auto)]

mod asked;
mod calls;
mod codes;
mod documents;
mod findings;
mod folding;
mod forms;
mod hints;
mod json;
mod marked;
mod matching;
mod pairs;
mod parts;
mod primitives;
mod renaming;
mod selecting;
mod server;
mod serving;
mod symbols;
mod uses;
mod waiting;

pub use findings::Linter;
pub use server::Server;
pub use serving::{Finish, serve};
