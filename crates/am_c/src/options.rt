ghost use Rattle.std.specs.Prelude.{◌≡◌, Some, IfOk, IfErr, IsUtf8, map};
ghost use Rattle.am_text_defs.specs.Fields.{split_text};
ghost use Rattle.am_cli_words.specs.declared.form.Form.TheVariants as form;
ghost use Rattle.am_cli_words.specs.Forms.{form_of};
ghost use Rattle.am_c.specs.Handles.{Opened};
ghost use Rattle.am_c.specs.Numbers.{number_for};
ghost use Rattle.am_c.specs.Sessions.{IsNode, option_words};

use crate::numbers::{BAD_OPTIONS, NO_MEMORY};
use crate::session::Session;
use am_cli_words::form::{Form, form_of};
use am_cli_words::node::NodeWords;
use std::alloc::{AllocError, Global};

/// Why options name no node.
#[derive(Clone, Copy, PartialEq, Eq, Debug)]
pub(crate) enum OptionsFault {
    /// They are none.
    Form,
    /// There was no memory.
    NoMemory,
}

impl OptionsFault {
    /// Its number.
    pub(crate) fn number(self) -> i32
        ensures { result ≡ number_for self }
    {
        match self {
            OptionsFault::Form => BAD_OPTIONS,
            OptionsFault::NoMemory => NO_MEMORY,
        }
    }
}

/// The words of a text, with one blank between two.
fn words(alloc: Global, text: &str) -> Result<Vec<&str>, AllocError>
    ensures { IfOk result (λ words. map (λ word. word.now) words.items ≡ split_text 32 text.now) }
{
    text.split(' ').collect(alloc)
}

/// The node that options ask for: those of the program's word `node`, with one blank between two words.
pub(crate) fn node_of(alloc: Global, options: &[u8]) -> Result<NodeWords, OptionsFault>
    ensures node { IfOk result (λ node. form_of (option_words options.now) ≡ Some (form.Node node)) }
    ensures form { IfErr result (λ fault. fault ≡ OptionsFault.Form → IsUtf8 options.now
        → IsNode (form_of (option_words options.now)) → ⊥) }
{
    let Ok(options) = str::from_utf8(options) else {
        return Err(OptionsFault::Form);
    };
    let Ok(text) = format!(in alloc; "node {options}") else {
        return Err(OptionsFault::NoMemory);
    };
    let Ok(words) = words(alloc, &text) else {
        return Err(OptionsFault::NoMemory);
    };
    match form_of(words.as_slice()) {
        Some(Form::Node(node)) => Ok(node),
        Some(Form::Play(_)) => Err(OptionsFault::Form),
        Some(Form::Race) => Err(OptionsFault::Form),
        Some(Form::Gen(_)) => Err(OptionsFault::Form),
        Some(Form::Script(_)) => Err(OptionsFault::Form),
        Some(Form::Audit) => Err(OptionsFault::Form),
        Some(Form::Parts) => Err(OptionsFault::Form),
        None => Err(OptionsFault::Form),
    }
}

/// A session of the node that options ask for.
pub(crate) fn opened(alloc: Global, options: &[u8]) -> Result<Box<Session>, OptionsFault>
    ensures opened { IfOk result (λ session. Opened options.now (Some session.value)) }
    ensures form { IfErr result (λ fault. fault ≡ OptionsFault.Form → IsUtf8 options.now
        → IsNode (form_of (option_words options.now)) → ⊥) }
{
    let node = node_of(alloc, options)?;
    let Ok(session) = Session::new(alloc, &node) else {
        return Err(OptionsFault::NoMemory);
    };
    match Box::new(alloc, session) {
        Ok(session) => Ok(session),
        Err(_) => Err(OptionsFault::NoMemory),
    }
}
