//! Programs, as they are launched.

use crate::debuggee::{Debuggee, Launch};
use crate::messages::{number_at, text_at};
use crate::programs::{Programs, unread};
use serde_json::Value;
use std::alloc::{AllocError, Allocator, Global};
use trac_rules::width::Width;
use trac_streams::Ending;

/// What is said of a launch that names no program.
pub(crate) const NO_PROGRAM: &str = "launch takes program, the path of a file";

// What is said of numbers that are of no width.
const NO_WIDTH: &str = "decimals is 64 or 128";

/// What the arguments of a request ask for, or why that is not understood. The error is that memory was refused, here
/// and below.
pub(crate) fn launch_of(
    global: Global,
    arguments: &Value,
) -> Result<Result<Launch, &'static str>, AllocError> {
    let Some(program) = text_at(arguments, "/program") else {
        return Ok(Err(NO_PROGRAM));
    };
    let width = match number_at(arguments, "/decimals") {
        None | Some(128) => Width::W128,
        Some(64) => Width::W64,
        Some(_) => return Ok(Err(NO_WIDTH)),
    };
    let input = match text_at(arguments, "/input") {
        Some(input) => Some(String::from_str(global, input)?),
        None => None,
    };
    let stops_on_entry = arguments.pointer("/stopOnEntry").and_then(Value::as_bool);
    Ok(Ok(Launch {
        program: String::from_str(global, program)?,
        input,
        width,
        stops_on_entry: stops_on_entry.unwrap_or(false),
    }))
}

/// The program that is launched, before its first step, or why there is none.
pub(crate) fn launched<P: Programs<A>, A: Allocator + Copy>(
    alloc: A,
    global: Global,
    programs: &P,
    launch: Launch,
) -> Result<Result<Debuggee<A>, String>, AllocError> {
    let mut tape = match programs.read(launch.program.as_str()) {
        Ok(tape) => tape,
        Err(ending) => return Ok(Err(refusal(global, launch.program.as_str(), ending)?)),
    };
    let len = tape.len();
    if let Some(path) = &launch.input {
        match programs.read(path.as_str()) {
            Ok(input) => tape.extend_from_slice(input.as_slice())?,
            Err(ending) => return Ok(Err(refusal(global, path.as_str(), ending)?)),
        }
    }
    let name = launch.program.clone()?;
    match Debuggee::new(alloc, launch, tape, len) {
        Ok(debuggee) => Ok(Ok(debuggee)),
        Err(ending) => Ok(Err(refusal(global, name.as_str(), ending)?)),
    }
}

// Why the file at a path is not had.
fn refusal(global: Global, path: &str, ending: Ending) -> Result<String, AllocError> {
    let why = unread(ending);
    format!(in global; "{path}: {why}")
}
