//! The texts that the editor has open.

use std::alloc::{AllocError, Global};
use trac_mentions::Mentions;

/// A text, with the name that the editor has for its file.
#[derive(Drop)]
pub(crate) struct Document {
    /// The name.
    pub uri: String,
    /// The text.
    pub text: Vec<u8>,
    // what a run of it tells, once it was run
    known: Option<Mentions>,
}

/// The texts that are open.
#[derive(Drop)]
pub(crate) struct Documents {
    all: Vec<Document>,
}

impl Documents {
    /// None is open. It takes no memory.
    pub(crate) fn new(alloc: Global) -> Self {
        Documents {
            all: Vec::new(alloc),
        }
    }

    // The document of this name, if it is open.
    fn find(&self, uri: &str) -> Option<&Document> {
        self.all
            .iter()
            .find(|document| document.uri.as_str() == uri)
    }

    /// The text of this name, if it is open.
    pub(crate) fn text(&self, uri: &str) -> Option<&[u8]> {
        Some(self.find(uri)?.text.as_slice())
    }

    /// What a run tells of the text of this name, if it was run.
    pub(crate) fn known(&self, uri: &str) -> Option<&Mentions> {
        self.find(uri)?.known.as_ref()
    }

    /// Keeps what a run tells of the text of this name.
    pub(crate) fn keep(&mut self, uri: &str, known: Mentions) {
        let mut known = Some(known);
        for document in self.all.iter_mut() {
            if document.uri.as_str() == uri {
                document.known = known.take();
            }
        }
    }

    /// A text becomes this, and is open. The error is that memory was refused; the text is as before then.
    pub(crate) fn put(
        &mut self,
        alloc: Global,
        uri: &str,
        text: Vec<u8>,
    ) -> Result<(), AllocError> {
        for document in self.all.iter_mut() {
            if document.uri.as_str() == uri {
                document.text = text;
                document.known = None;
                return Ok(());
            }
        }
        let uri = String::from_str(alloc, uri)?;
        let known = None;
        Ok(self.all.push(Document { uri, text, known })?)
    }

    /// A text is open no longer.
    pub(crate) fn close(&mut self, uri: &str) {
        self.all.retain(|document| document.uri.as_str() != uri);
    }
}
