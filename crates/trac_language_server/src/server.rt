//! The server: what it knows, and what it replies to each message.

use crate::asked::Asked;
use crate::documents::Documents;
use crate::findings::{Linter, findings_of};
use crate::folding::folds_of;
use crate::forms::named_at;
use crate::json::{
    CANCELLED, FAILED, NO_METHOD, NO_REQUEST, NOT_YET, notice, position_in, range_in, refusal,
    reply, text_at,
};
use crate::marked::Marked;
use crate::renaming::{Renaming, renaming_of};
use crate::selecting::selections_of;
use crate::symbols::symbols_of;
use crate::waiting::{Came, is_cancelled, is_changed};
use serde_json::{Value, json};
use std::alloc::{AllocError, Global};
use trac_documents::{Encoding, changed};

// Where the name of a request's document stands.
const URI: &str = "/params/textDocument/uri";

// How far the exchange is.
#[derive(Clone, Copy, Debug, PartialEq, Eq)]
enum Phase {
    New,
    Running,
    ShutDown,
}

/// What becomes of a message.
#[derive(Clone, Copy, Debug, PartialEq, Eq)]
pub(crate) enum Turn {
    /// The server goes on.
    GoesOn,
    /// The editor asked it to end; whether it asked for that first by `shutdown`.
    Ends(bool),
}

/// A language server.
#[derive(Drop)]
pub struct Server<'l, L: Linter> {
    alloc: Global,
    linter: &'l L,
    phase: Phase,
    encoding: Encoding,
    documents: Documents,
}

impl<'l, L: Linter> Server<'l, L> {
    /// A server that asks this linter what is doubtful. It takes no memory.
    pub fn new(alloc: Global, linter: &'l L) -> Self {
        Server {
            alloc,
            linter,
            phase: Phase::New,
            encoding: Encoding::Utf16,
            documents: Documents::new(alloc),
        }
    }

    /// Does what a message that came wants, unless later ones make that void, and puts the messages that are sent for
    /// it at the end of others. The error is that memory was refused, here and below.
    pub(crate) fn take(
        &mut self,
        one: &Came,
        later: &[Came],
        sent: &mut Vec<Value>,
    ) -> Result<Turn, AllocError> {
        match one {
            Came::Message(message) => self.take_value(message, later, sent),
            Came::Fault(code, words) => self.refuse(&Value::Null, *code, *words, sent),
        }
    }

    // Refuses a request.
    fn refuse(
        &self,
        id: &Value,
        code: i64,
        words: &str,
        sent: &mut Vec<Value>,
    ) -> Result<Turn, AllocError> {
        sent.push(refusal(self.alloc, id, code, words)?)?;
        Ok(Turn::GoesOn)
    }

    // Does what a message asks for. A reply asks for nothing.
    fn take_value(
        &mut self,
        message: &Value,
        later: &[Came],
        sent: &mut Vec<Value>,
    ) -> Result<Turn, AllocError> {
        let null = Value::Null;
        let Some(method) = text_at(message, "/method") else {
            if message.get("result").is_some() || message.get("error").is_some() {
                return Ok(Turn::GoesOn);
            }
            let id = message.get("id").unwrap_or(&null);
            return self.refuse(id, NO_REQUEST, "this is no request", sent);
        };
        match message.get("id") {
            Some(id) if is_cancelled(later, id) => {
                self.refuse(id, CANCELLED, "the request is cancelled", sent)
            }
            Some(id) => self.answer(id, method, message, sent),
            None => self.heed(method, message, later, sent),
        }
    }

    // Answers a request.
    fn answer(
        &mut self,
        id: &Value,
        method: &str,
        message: &Value,
        sent: &mut Vec<Value>,
    ) -> Result<Turn, AllocError> {
        match self.phase {
            Phase::New if method != "initialize" => {
                return self.refuse(id, NOT_YET, "initialize has to come first", sent);
            }
            Phase::ShutDown => {
                return self.refuse(id, NO_REQUEST, "the server is shut down", sent);
            }
            _ => {}
        }
        let result = match method.as_bytes() {
            b"initialize" => Some(self.begin(message)?),
            b"shutdown" => {
                self.phase = Phase::ShutDown;
                Some(Value::Null)
            }
            b"textDocument/rename" => return self.rename(id, message, sent),
            method => match self.of_text(method, message)? {
                Some(result) => Some(result),
                None => self.of_run(method, message)?,
            },
        };
        match result {
            Some(result) => {
                sent.push(reply(self.alloc, id, result)?)?;
                Ok(Turn::GoesOn)
            }
            None => self.refuse(id, NO_METHOD, "there is no such method", sent),
        }
    }

    // What a request gives that looks at a text alone; none, if it has another method.
    fn of_text(&self, method: &[u8], message: &Value) -> Result<Option<Value>, AllocError> {
        let marked = self.marked(message)?;
        Ok(Some(match method {
            b"textDocument/documentSymbol" => symbols_of(self.alloc, &marked)?,
            b"textDocument/foldingRange" => folds_of(self.alloc, &marked)?,
            b"textDocument/selectionRange" => self.selections(message, &marked)?,
            _ => return Ok(None),
        }))
    }

    // What a request gives that looks at a place of a text that was run; none, if it has another method.
    fn of_run(&mut self, method: &[u8], message: &Value) -> Result<Option<Value>, AllocError> {
        match Asked::of(method, message) {
            Some(asked) => {
                self.learn(message);
                Ok(Some(self.result_of(asked, message)?))
            }
            None => Ok(None),
        }
    }

    // What is replied to what is asked of a text that was run; null, if it is not open.
    fn result_of(&self, asked: Asked, message: &Value) -> Result<Value, AllocError> {
        let uri = text_at(message, URI).unwrap_or("");
        let Some(known) = self.documents.known(uri) else {
            return Ok(Value::Null);
        };
        let marked = self.marked(message)?;
        match spot_of(message, &marked) {
            Some(offset) => asked.result(self.alloc, (uri, &marked), known, offset),
            None => Ok(Value::Null),
        }
    }

    // Runs the text of a request, if it is open and was not run as it is.
    fn learn(&mut self, message: &Value) {
        let uri = text_at(message, URI).unwrap_or("");
        if self.documents.known(uri).is_some() {
            return;
        }
        if let Some(text) = self.documents.text(uri) {
            let known = self.linter.mentions(self.alloc, text);
            self.documents.keep(uri, known);
        }
    }

    // Gives a form another name.
    fn rename(
        &mut self,
        id: &Value,
        message: &Value,
        sent: &mut Vec<Value>,
    ) -> Result<Turn, AllocError> {
        self.learn(message);
        match self.renaming(message)? {
            Renaming::Edits(edits) => {
                sent.push(reply(self.alloc, id, edits)?)?;
                Ok(Turn::GoesOn)
            }
            Renaming::Refused(why) => self.refuse(id, FAILED, why.as_str(), sent),
        }
    }

    // What becomes of the renaming that a request asks for.
    fn renaming(&self, message: &Value) -> Result<Renaming, AllocError> {
        let uri = text_at(message, URI).unwrap_or("");
        let new = text_at(message, "/params/newName").unwrap_or("");
        let marked = self.marked(message)?;
        if let Some(known) = self.documents.known(uri)
            && let Some(offset) = spot_of(message, &marked)
            && let Some(named) = named_at(self.alloc, marked.text, known, offset)?
        {
            let names = (named.name, new);
            return renaming_of(self.alloc, self.linter, (uri, &marked), known, names);
        }
        let why = "no form is named here";
        Ok(Renaming::Refused(String::from_str(self.alloc, why)?))
    }

    // Begins: chooses how positions are counted, and says what the server can do.
    fn begin(&mut self, message: &Value) -> Result<Value, AllocError> {
        self.phase = Phase::Running;
        let encodings = message.pointer("/params/capabilities/general/positionEncodings");
        if let Some(Value::Array(encodings)) = encodings
            && encodings
                .iter()
                .any(|encoding| encoding.as_str() == Some("utf-8"))
        {
            self.encoding = Encoding::Utf8;
        }
        let encoding = match self.encoding {
            Encoding::Utf8 => "utf-8",
            Encoding::Utf16 => "utf-16",
        };
        json!(in self.alloc; {
            "capabilities": {
                "positionEncoding": encoding,
                "textDocumentSync": {"openClose": true, "change": 2},
                "hoverProvider": true,
                "completionProvider": {"triggerCharacters": ["(", ","]},
                "definitionProvider": true,
                "referencesProvider": true,
                "renameProvider": {"prepareProvider": true},
                "documentSymbolProvider": true,
                "documentHighlightProvider": true,
                "foldingRangeProvider": true,
                "selectionRangeProvider": true
            },
            "serverInfo": {"name": "trac lsp"}
        })
    }

    // Heeds a message that wants no reply. Any other than these is passed over.
    fn heed(
        &mut self,
        method: &str,
        message: &Value,
        later: &[Came],
        sent: &mut Vec<Value>,
    ) -> Result<Turn, AllocError> {
        if method == "exit" {
            return Ok(Turn::Ends(self.phase == Phase::ShutDown));
        }
        if self.phase != Phase::Running {
            return Ok(Turn::GoesOn);
        }
        match method.as_bytes() {
            b"textDocument/didOpen" => self.open(message)?,
            b"textDocument/didChange" => self.change(message)?,
            b"textDocument/didClose" => return self.close(message, sent),
            _ => return Ok(Turn::GoesOn),
        }
        match text_at(message, URI) {
            Some(uri) if !is_changed(later, uri) => self.publish(uri, sent)?,
            _ => {}
        }
        Ok(Turn::GoesOn)
    }

    // Opens a document.
    fn open(&mut self, message: &Value) -> Result<(), AllocError> {
        let (Some(uri), Some(text)) = (
            text_at(message, URI),
            text_at(message, "/params/textDocument/text"),
        ) else {
            return Ok(());
        };
        let text = Vec::from_slice(self.alloc, text.as_bytes())?;
        self.documents.put(self.alloc, uri, text)
    }

    // Changes a document.
    fn change(&mut self, message: &Value) -> Result<(), AllocError> {
        let Some(uri) = text_at(message, URI) else {
            return Ok(());
        };
        let changes = message.pointer("/params/contentChanges");
        let Some(Value::Array(changes)) = changes else {
            return Ok(());
        };
        for change in changes {
            self.change_once(uri, change)?;
        }
        Ok(())
    }

    // Changes a document once.
    fn change_once(&mut self, uri: &str, change: &Value) -> Result<(), AllocError> {
        let (Some(text), Some(new)) = (self.documents.text(uri), text_at(change, "/text")) else {
            return Ok(());
        };
        let range = change.get("range").and_then(range_in);
        let text = changed(self.alloc, text, self.encoding, range, new.as_bytes())?;
        self.documents.put(self.alloc, uri, text)
    }

    // Closes a document: nothing is doubtful in it any longer.
    fn close(&mut self, message: &Value, sent: &mut Vec<Value>) -> Result<Turn, AllocError> {
        if let Some(uri) = text_at(message, URI) {
            self.documents.close(uri);
            self.send_findings(uri, Value::Array(Vec::new(self.alloc)), sent)?;
        }
        Ok(Turn::GoesOn)
    }

    // Says what is doubtful in a document.
    fn publish(&self, uri: &str, sent: &mut Vec<Value>) -> Result<(), AllocError> {
        let Some(text) = self.documents.text(uri) else {
            return Ok(());
        };
        let marked = Marked::of(self.alloc, text, self.encoding)?;
        let found = findings_of(self.alloc, self.linter, uri, &marked)?;
        self.send_findings(uri, found, sent)
    }

    fn send_findings(
        &self,
        uri: &str,
        found: Value,
        sent: &mut Vec<Value>,
    ) -> Result<(), AllocError> {
        let params = json!(in self.alloc; {"uri": uri, "diagnostics": found})?;
        let notice = notice(self.alloc, "textDocument/publishDiagnostics", params)?;
        Ok(sent.push(notice)?)
    }

    // The text of a request's document, with its positions; none is an empty text.
    fn marked(&self, message: &Value) -> Result<Marked<'_>, AllocError> {
        let text = text_at(message, URI).and_then(|uri| self.documents.text(uri));
        Marked::of(self.alloc, text.unwrap_or(b""), self.encoding)
    }

    // What is selected in turn from each position of a request on; null, if it has none.
    fn selections(&self, message: &Value, marked: &Marked<'_>) -> Result<Value, AllocError> {
        let Some(Value::Array(positions)) = message.pointer("/params/positions") else {
            return Ok(Value::Null);
        };
        let mut offsets = Vec::new(self.alloc);
        for position in positions {
            let Some(position) = position_in(position) else {
                return Ok(Value::Null);
            };
            offsets.push(marked.offset(position))?;
        }
        selections_of(self.alloc, marked, offsets.as_slice())
    }
}

// The byte of a text before which a request's position stands.
fn spot_of(message: &Value, marked: &Marked<'_>) -> Option<usize> {
    let position = position_in(message.pointer("/params/position")?)?;
    Some(marked.offset(position))
}
