//! The state of a connection, and what a message does to it.
ghost use Rattle.std.specs.Prelude.{◌≡◌, [], ◌∷◌, ℕ, List, IfOk, OnErr, OnOk, Some, None, bytes_eq, map, option_map, if◌then◌else◌};
ghost use Rattle.serde_json.specs.View.{view};
ghost use Rattle.isp_server.specs.Texts.{text_in};

use crate::asked::deed_of;
use crate::completion::completion;
use crate::deed::{Deed, Document, Place};
use crate::diagnostics::diagnostics;
use crate::phase::Phase;
use crate::question::Question;
use crate::refusal::Refusal;
use crate::renaming::renaming;
use crate::sent::{answer, introduction, published, refused};
use crate::told::told;
use isp_base::Gang;
use serde_json::Value;
use std::alloc::{AllocError, Global};
use std::collections::BTreeMap;

/// Whether the server goes on after a message.
#[derive(Clone, Copy, Debug, PartialEq, Eq)]
pub enum Next {
    GoOn,
    /// The process ends with this status: 0 after `shutdown`, else 1.
    End(u8),
}

/// What is sent after a message, in this order.
#[derive(Drop)]
pub struct Reply {
    pub messages: Vec<Value>,
    pub next: Next,
}

/// One connection: how far it has come, and the texts of the open documents by URI.
#[derive(Drop)]
pub struct Server {
    gang: Gang,
    version: &'static str,
    pub(crate) phase: Phase,
    documents: BTreeMap<String, String>,
}

fn one(alloc: Global, message: Value) -> Result<Reply, AllocError>
    ensures messages { IfOk result (λ reply. map view reply.messages.items ≡ view message ∷ []) }
    ensures next { IfOk result (λ reply. reply.next ≡ Next.GoOn) }
{
    Ok(Reply {
        messages: vec![in alloc; message]?,
        next: Next::GoOn,
    })
}

fn none(alloc: Global, next: Next) -> Reply
    ensures messages { map view result.messages.items ≡ [] }
    ensures next { result.next ≡ next }
{
    Reply {
        messages: Vec::new(alloc),
        next,
    }
}

// The text is kept under its URI.
fn keep(
    alloc: Global,
    documents: &mut BTreeMap<String, String>,
    document: Document<'_>,
) -> Result<(), AllocError>
    ensures ok { OnOk result ((name : List ℕ) → text_in documents.new name
        ≡ (if bytes_eq document.entry.uri.now name then Some document.entry.text.now else text_in documents.old name)) }
    ensures err { OnErr result ((name : List ℕ) → text_in documents.new name ≡ text_in documents.old name) }
{
    let uri = String::from_str(alloc, document.uri)?;
    let text = String::from_str(alloc, document.text)?;
    match documents.insert(uri, text) {
        Ok(_) => Ok(()),
        Err(_) => Err(AllocError),
    }
}

fn forget(documents: &mut BTreeMap<String, String>, uri: &str)
    ensures { (name : List ℕ) → text_in documents.new name
        ≡ (if bytes_eq uri.now name then None else text_in documents.old name) }
{
    documents.remove(uri);
}

impl Server {
    ghost use Rattle.isp_server.specs.Connections.{Does, Goes, IsFresh, Stays, connection_of, is_open, status_of};
    ghost use Rattle.isp_server.specs.Deeds.{complete, hold, introduce, refuse, release, rename, shut_down, tell};
    ghost use Rattle.isp_server.specs.reader.Views.{deed_view, id_view, place_view};

    /// A connection on which nothing has come. Texts are judged for a gang of this size, and `initialize` is told this version.
    pub fn new(alloc: Global, gang: Gang, version: &'static str) -> Server
        ensures { IsFresh gang version.now (connection_of result) }
    {
        Server {
            gang,
            version,
            phase: Phase::Fresh,
            documents: BTreeMap::new(alloc),
        }
    }

    /// Whether a document is open.
    pub fn is_open(&self, uri: &str) -> bool
        ensures { result ≡ is_open (connection_of self.now) uri.now }
    {
        self.documents.contains_key(uri)
    }

    /// Takes the content of one message, and says what is sent after it. Where memory is refused, nothing has changed.
    pub fn answer(&mut self, alloc: Global, content: &[u8]) -> Result<Reply, AllocError>
        ensures ok { IfOk result (λ reply. Goes (connection_of self.old) content.now (connection_of self.new) (map view reply.messages.items) reply.next) }
        ensures err { OnErr result (Stays (connection_of self.old) (connection_of self.new)) }
    {
        match Value::from_slice(alloc, content) {
            Ok(message) => {
                let deed = deed_of(self, &message);
                self.act(alloc, deed)
            }
            Err(error) => {
                if error.is_memory() {
                    return Err(AllocError);
                }
                self.act(alloc, Deed::Refuse(None, Refusal::ParseError))
            }
        }
    }

    fn act(&mut self, alloc: Global, deed: Deed<'_>) -> Result<Reply, AllocError>
        ensures ok { IfOk result (λ reply. Does (deed_view deed.entry) (connection_of self.old) (connection_of self.new) (map view reply.messages.items) reply.next) }
        ensures err { OnErr result (Stays (connection_of self.old) (connection_of self.new)) }
    {
        match deed {
            Deed::Refuse(id, why) => self.refuse(alloc, id, why),
            Deed::Introduce(id) => self.introduce(alloc, id),
            Deed::ShutDown(id) => self.shut_down(alloc, id),
            Deed::Tell(id, question, at) => self.tell(alloc, id, question, at),
            Deed::Complete(id, at) => self.complete(alloc, id, at),
            Deed::Rename(id, at, name) => self.rename(alloc, id, at, name),
            Deed::Hold(document) => self.hold(alloc, document),
            Deed::Release(uri) => self.release(alloc, uri),
            Deed::Leave => Ok(none(alloc, Next::End(self.status()))),
            Deed::Ignore => Ok(none(alloc, Next::GoOn)),
        }
    }

    fn refuse(&self, alloc: Global, id: Option<&Value>, why: Refusal) -> Result<Reply, AllocError>
        ensures { IfOk result (λ reply. Does (refuse (id_view id.entry) why) (connection_of self.now) (connection_of self.now) (map view reply.messages.items) reply.next) }
    {
        let answer = refused(alloc, id, why)?;
        let reply = one(alloc, answer)?;
        Ok(reply)
    }

    fn introduce(&mut self, alloc: Global, id: &Value) -> Result<Reply, AllocError>
        ensures ok { IfOk result (λ reply. Does (introduce (view id.now)) (connection_of self.old) (connection_of self.new) (map view reply.messages.items) reply.next) }
        ensures err { OnErr result (Stays (connection_of self.old) (connection_of self.new)) }
    {
        let introduction = introduction(alloc, self.version)?;
        let reply = one(alloc, answer(alloc, id, introduction)?)?;
        self.phase = Phase::Running;
        Ok(reply)
    }

    fn shut_down(&mut self, alloc: Global, id: &Value) -> Result<Reply, AllocError>
        ensures ok { IfOk result (λ reply. Does (shut_down (view id.now)) (connection_of self.old) (connection_of self.new) (map view reply.messages.items) reply.next) }
        ensures err { OnErr result (Stays (connection_of self.old) (connection_of self.new)) }
    {
        let reply = one(alloc, answer(alloc, id, Value::Null)?)?;
        self.phase = Phase::ShutDown;
        Ok(reply)
    }

    fn tell(
        &self,
        alloc: Global,
        id: &Value,
        question: Question,
        at: Place<'_>,
    ) -> Result<Reply, AllocError>
        ensures { IfOk result (λ reply. Does (tell (view id.now) question (place_view at.entry)) (connection_of self.now) (connection_of self.now) (map view reply.messages.items) reply.next) }
    {
        let text = self.text_of(at.uri);
        let said = told(alloc, self.gang, text, question, at)?;
        let reply = one(alloc, answer(alloc, id, said)?)?;
        Ok(reply)
    }

    fn complete(&self, alloc: Global, id: &Value, at: Place<'_>) -> Result<Reply, AllocError>
        ensures { IfOk result (λ reply. Does (complete (view id.now) (place_view at.entry)) (connection_of self.now) (connection_of self.now) (map view reply.messages.items) reply.next) }
    {
        let text = self.text_of(at.uri);
        let said = completion(alloc, text, at)?;
        let reply = one(alloc, answer(alloc, id, said)?)?;
        Ok(reply)
    }

    fn rename(
        &self,
        alloc: Global,
        id: &Value,
        at: Place<'_>,
        name: &str,
    ) -> Result<Reply, AllocError>
        ensures { IfOk result (λ reply. Does (rename (view id.now) (place_view at.entry) name.now) (connection_of self.now) (connection_of self.now) (map view reply.messages.items) reply.next) }
    {
        let text = self.text_of(at.uri);
        let message = renaming(alloc, self.gang, id, text, at, name)?;
        let reply = one(alloc, message)?;
        Ok(reply)
    }

    // The text of a document, if it is open.
    fn text_of(&self, uri: &str) -> Option<&str>
        ensures { option_map (λ t. t.now) result ≡ text_in self.now.documents uri.now }
    {
        match self.documents.get(uri) {
            Some(text) => Some(text.as_str()),
            None => None,
        }
    }

    fn hold(&mut self, alloc: Global, document: Document<'_>) -> Result<Reply, AllocError>
        ensures ok { IfOk result (λ reply. Does (hold document.entry.uri.now document.entry.text.now) (connection_of self.old) (connection_of self.new) (map view reply.messages.items) reply.next) }
        ensures err { OnErr result (Stays (connection_of self.old) (connection_of self.new)) }
    {
        let found = diagnostics(alloc, self.gang, document.text)?;
        let reply = one(alloc, published(alloc, document.uri, found)?)?;
        keep(alloc, &mut self.documents, document)?;
        Ok(reply)
    }

    fn release(&mut self, alloc: Global, uri: &str) -> Result<Reply, AllocError>
        ensures ok { IfOk result (λ reply. Does (release uri.now) (connection_of self.old) (connection_of self.new) (map view reply.messages.items) reply.next) }
        ensures err { OnErr result (Stays (connection_of self.old) (connection_of self.new)) }
    {
        let reply = one(alloc, published(alloc, uri, Vec::new(alloc))?)?;
        forget(&mut self.documents, uri);
        Ok(reply)
    }

    // The exit status.
    fn status(&self) -> u8
        ensures { result ≡ status_of self.now.phase }
    {
        match self.phase {
            Phase::ShutDown => 0,
            Phase::Fresh | Phase::Running => 1,
        }
    }
}
