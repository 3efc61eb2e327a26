//! The exchange with an editor: messages from a reader, replies to a writer.

use crate::findings::Linter;
use crate::json::{NO_JSON, NO_REQUEST};
use crate::server::{Server, Turn};
use crate::waiting::Came;
use serde_json::Value;
use std::alloc::{AllocError, Global};
use std::io::{Read, Write};
use trac_messages::{Incoming, Next, write_message};
use trac_streams::Ending;

// So many messages are looked at together at most.
const MOST: usize = 256;

/// How an exchange ended.
#[derive(Clone, Copy, Debug, PartialEq, Eq)]
pub enum Finish {
    /// The editor asked for the end, after `shutdown`.
    Asked,
    /// The messages ended, or the editor asked for the end without `shutdown`.
    Unasked,
    /// The reader or the writer failed, or memory was refused for a message or a reply.
    Failed(Ending),
}

/// Takes messages, and writes what is to be sent for each before it reads on, to the end of the exchange. What has come
/// already is looked at together: so what is late by then is not done.
pub fn serve<R: Read, W: Write, L: Linter>(
    alloc: Global,
    server: &mut Server<'_, L>,
    input: &mut R,
    output: &mut W,
) -> Finish {
    let mut incoming = Incoming::new(alloc);
    for _turn in 0..u64::MAX {
        let mut came = Vec::new(alloc);
        let end = gather(alloc, &mut incoming, input, &mut came);
        if let Some(finish) = take_all(alloc, server, came.as_slice(), output) {
            return finish;
        }
        if let Some(finish) = end {
            return finish;
        }
    }
    Finish::Unasked
}

// Waits for a message, and puts it and those that were read with it at the end of others. If nothing comes any more,
// says why.
fn gather<R: Read>(
    alloc: Global,
    incoming: &mut Incoming<Global>,
    input: &mut R,
    came: &mut Vec<Came>,
) -> Option<Finish> {
    for _message in 0..MOST {
        let next = match incoming.next(input) {
            Ok(Next::End | Next::Cut) => return Some(Finish::Unasked),
            Ok(next) => next,
            Err(ending) => return Some(Finish::Failed(ending)),
        };
        let Ok(one) = came_of(alloc, next, incoming.message()) else {
            return Some(Finish::Failed(Ending::Memory));
        };
        if came.push(one).is_err() {
            return Some(Finish::Failed(Ending::Memory));
        }
        if !incoming.is_ready() {
            break;
        }
    }
    None
}

// What came next. The error is that memory was refused.
fn came_of(alloc: Global, next: Next, message: &[u8]) -> Result<Came, AllocError> {
    match next {
        Next::Message => match Value::from_slice(alloc, message) {
            Ok(message) => Ok(Came::Message(message)),
            Err(error) if error.is_memory() => Err(AllocError),
            Err(_) => Ok(Came::Fault(NO_JSON, "this is no JSON")),
        },
        Next::TooLong(_) => {
            let words = "this message has more than 16777216 bytes";
            Ok(Came::Fault(NO_REQUEST, words))
        }
        _ => {
            let words = "this header has no Content-Length";
            Ok(Came::Fault(NO_REQUEST, words))
        }
    }
}

// Takes what came, and writes what is to be sent for each. Answers how the exchange ended, if it did.
fn take_all<W: Write, L: Linter>(
    alloc: Global,
    server: &mut Server<'_, L>,
    came: &[Came],
    output: &mut W,
) -> Option<Finish> {
    for (place, one) in came.iter().enumerate() {
        let later = came.split_at(came.len().min(place.saturating_add(1))).1;
        let mut sent = Vec::new(alloc);
        let turn = match server.take(one, later, &mut sent) {
            Ok(turn) => turn,
            Err(AllocError) => return Some(Finish::Failed(Ending::Memory)),
        };
        if let Err(ending) = send_all(alloc, sent.as_slice(), output) {
            return Some(Finish::Failed(ending));
        }
        match turn {
            Turn::GoesOn => {}
            Turn::Ends(true) => return Some(Finish::Asked),
            Turn::Ends(false) => return Some(Finish::Unasked),
        }
    }
    None
}

// Writes messages.
fn send_all<W: Write>(alloc: Global, sent: &[Value], output: &mut W) -> Result<(), Ending> {
    for reply in sent {
        let Ok(text) = reply.to_vec(alloc) else {
            return Err(Ending::Memory);
        };
        write_message(alloc, output, text.as_slice())?;
    }
    Ok(())
}
