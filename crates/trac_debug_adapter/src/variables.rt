//! What is seen of a program that stands: arguments, forms, blocks, the machine and the output.

use crate::debuggee::{Debuggee, shown};
use crate::messages::Request;
use serde_json::{Value, json};
use std::alloc::{AllocError, Allocator, Global};
use trac_person_lines::form_into;

// The numbers by which the editor asks for what is seen; those of arguments are this and the number of the frame.
const FORMS: u64 = 1;

const BLOCKS: u64 = 2;

const MACHINE: u64 = 3;

const OUTPUT: u64 = 4;

const ARGUMENTS: u64 = 8;

// Of a long text so many bytes are shown, at its front, or at its end if it is the output.
const TEXT_LIMIT: usize = 4096;

// What the line of a form has before its items.
const LABEL: usize = 8;

/// What can be seen at the frame of this number.
pub(crate) fn scopes(global: Global, frame: u64) -> Result<Value, AllocError> {
    let mut scopes = Vec::new(global);
    let arguments = ARGUMENTS.saturating_add(frame);
    let all = [
        ("Arguments", arguments),
        ("Forms", FORMS),
        ("Blocks", BLOCKS),
        ("Machine", MACHINE),
        ("Output", OUTPUT),
    ];
    for (name, reference) in all {
        scopes.push(json!(in global; {
            "name": name, "variablesReference": reference, "expensive": false
        })?)?;
    }
    let scopes = Value::Array(scopes);
    json!(in global; {"scopes": scopes})
}

// A name with a text. The error is that memory was refused, here and below.
fn variable(
    global: Global,
    variables: &mut Vec<Value>,
    name: &str,
    value: &[u8],
) -> Result<(), AllocError> {
    let mut text = shown(global, front(value, TEXT_LIMIT))?;
    if value.len() > TEXT_LIMIT {
        text.push_str("..")?;
    }
    let variable = json!(in global; {
        "name": name, "value": text.as_str(), "variablesReference": 0
    })?;
    Ok(variables.push(variable)?)
}

// A name with a number.
fn counted(
    global: Global,
    variables: &mut Vec<Value>,
    name: &str,
    value: u64,
) -> Result<(), AllocError> {
    let text = format!(in global; "{value}")?;
    variable(global, variables, name, text.as_bytes())
}

impl<A: Allocator + Copy> Debuggee<A> {
    /// What is seen of what the editor asks for.
    pub(crate) fn variables(
        &self,
        global: Global,
        request: Request<'_>,
    ) -> Result<Value, AllocError> {
        let mut variables = Vec::new(global);
        match request.number("/variablesReference").unwrap_or(0) {
            FORMS => self.forms_into(global, &mut variables)?,
            BLOCKS => self.blocks_into(global, &mut variables)?,
            MACHINE => self.machine_into(global, &mut variables)?,
            OUTPUT => self.output_into(global, &mut variables)?,
            other => self.arguments_into(global, other.saturating_sub(ARGUMENTS), &mut variables)?,
        }
        let variables = Value::Array(variables);
        json!(in global; {"variables": variables})
    }

    // The arguments of the call of this frame, its name first.
    fn arguments_into(
        &self,
        global: Global,
        frame: u64,
        variables: &mut Vec<Value>,
    ) -> Result<(), AllocError> {
        let Some(number) = frame.checked_sub(1) else {
            return Ok(());
        };
        let Some((_, arguments)) = self.walker.machine().frame(number as usize) else {
            return Ok(());
        };
        for place in 0..arguments.count() {
            let name = format!(in global; "{place}")?;
            variable(global, variables, name.as_str(), arguments.get(place))?;
        }
        Ok(())
    }

    // The forms, each with its gaps as `[k]`, and its pointer as `[^]`.
    fn forms_into(&self, global: Global, variables: &mut Vec<Value>) -> Result<(), AllocError> {
        let store = self.walker.sight().store;
        let names = store.names().map_err(|_| AllocError)?;
        for name in &names {
            let text = self.form_text(name)?;
            let shown_name = shown(global, name)?;
            variable(global, variables, shown_name.as_str(), text.as_slice())?;
        }
        Ok(())
    }

    /// The text of the form of this name, so; or that there is none.
    pub(crate) fn form_text(&self, name: &[u8]) -> Result<Vec<u8, A>, AllocError> {
        let mut line = Vec::new(self.alloc);
        form_into(self.alloc, self.walker.sight().store, name, &mut line)?;
        let end = line.len().saturating_sub(1);
        line.truncate(end);
        let bytes = line.as_slice();
        Vec::from_slice(self.alloc, bytes.split_at(bytes.len().min(LABEL)).1)
    }

    // The blocks, each with the names of its forms.
    fn blocks_into(&self, global: Global, variables: &mut Vec<Value>) -> Result<(), AllocError> {
        let store = self.walker.sight().store;
        for number in 0..store.block_count() {
            let Some(block) = store.block(number) else {
                continue;
            };
            let mut names = Vec::new(global);
            for place in 0..block.len() {
                if let Some((name, _)) = block.get(place) {
                    if place > 0 {
                        names.extend_from_slice(b", ")?;
                    }
                    names.extend_from_slice(name)?;
                }
            }
            let name = format!(in global; "{number}")?;
            variable(global, variables, name.as_str(), names.as_slice())?;
        }
        Ok(())
    }

    // The machine: what else it has, and how far it has come.
    fn machine_into(&self, global: Global, variables: &mut Vec<Value>) -> Result<(), AllocError> {
        let machine = self.walker.machine();
        let reach = self.walker.reach();
        let trace: &[u8] = if machine.trace() { b"on" } else { b"off" };
        counted(global, variables, "step", reach.step)?;
        counted(global, variables, "first step kept", reach.first_step)?;
        variable(global, variables, "meta", &[machine.meta()])?;
        variable(global, variables, "trace", trace)?;
        counted(global, variables, "begun calls", machine.depth() as u64)?;
        counted(global, variables, "bytes not read", reach.unread)?;
        counted(global, variables, "bytes printed", reach.printed)?;
        variable(global, variables, "active text", machine.active())
    }

    // The end of what was printed.
    fn output_into(&self, global: Global, variables: &mut Vec<Value>) -> Result<(), AllocError> {
        let text = self.walker.pending();
        let start = text.len().saturating_sub(TEXT_LIMIT);
        variable(global, variables, "printed", text.split_at(start).1)
    }
}

// The first bytes of a text, so many at most.
fn front(text: &[u8], most: usize) -> &[u8] {
    text.split_at(text.len().min(most)).0
}
