//! A node as a static library for C and whatever calls C: a handle is opened with a node's options, answers lines and events, and is closed
//! (docs/EMBEDDING.md; bindings/c/muoswyld.h is the header).
#![tactic(auto)]

ghost use Rattle.std.specs.Prelude.{◌≡◌, ◌≢◌, ◌↔◌, None, IsSome, IfSome, IsUtf8};
ghost use Rattle.am_cli_words.specs.Forms.{form_of};
ghost use Rattle.am_c.specs.declared.session.SessionStage.TheVariants as stages;
ghost use Rattle.am_c.specs.Numbers.{done, no_memory, no_room, closed, open_now, bad_options, other_waits, number_closing};
ghost use Rattle.am_c.specs.Sessions.{a_line, an_event, IsNode, option_words, Told, FoundNoRoom, WaitsForOther};
ghost use Rattle.am_c.specs.Handles.{Opened, Between};

use handle::Handle;
use numbers::{CLOSED, DONE, OPEN};
use options::opened;
use parts::RawBox;
use session::AskForm;
use std::alloc::Global;
use std::mem::replace;

mod handle;
mod numbers;
mod options;
mod parts;
mod session;

/// Opens a handle, which is closed: a node of its own, by the options of the program's word `node`, with one blank between two words.
/// It gives 0; 1 where there is no memory, 4 where the handle is open, or 5 where the options are none.
#[unsafe(no_mangle)]
pub extern "C" fn muoswyld_open(alloc: Global, node: &mut Handle, options: &[u8]) -> i32
    ensures opened { result ≡ done → Opened options.now node.new.session }
    ensures open { (result ≡ open_now) ↔ IsSome node.old.session }
    ensures same { result ≡ open_now → node.new.session ≡ node.old.session }
    ensures stays_closed { result ≢ done → result ≢ open_now → node.new.session ≡ None }
    ensures options { result ≡ bad_options → IsUtf8 options.now
        → IsNode (form_of (option_words options.now)) → ⊥ }
    ensures numbers { result ≢ done → result ≢ open_now → result ≢ bad_options
        → result ≡ no_memory }
{
    if let Some(parts) = replace(node, Handle::closed()).take(alloc) {
        *node = Handle::of(parts);
        return OPEN;
    }
    match opened(alloc, options) {
        Ok(session) => {
            *node = Handle::of(RawBox::of(session));
            DONE
        }
        Err(fault) => fault.number(),
    }
}

/// Gives what is asked in a form its answer, as `muoswyld_step` and `muoswyld_do` do.
fn ask(
    alloc: Global,
    node: &mut Handle,
    form: AskForm,
    asked: &[u8],
    answer: &mut [u8],
    length: &mut usize,
) -> i32
    ensures told { result ≡ done → Between node.old.session node.new.session
        (λ old new. Told old (record { form = form; bytes = asked.now }) new answer.old answer.new length.new) }
    ensures no_room { result ≡ no_room → Between node.old.session node.new.session
        (λ old new. FoundNoRoom old (record { form = form; bytes = asked.now }) new answer.old length.new) }
    ensures no_memory { result ≡ no_memory → Between node.old.session node.new.session
        (λ old new. new.stage ≡ stages.Spent) }
    ensures other { result ≡ other_waits → Between node.old.session node.new.session
        (λ old new. WaitsForOther old (record { form = form; bytes = asked.now })) }
    ensures closed { (result ≡ closed) ↔ (node.old.session ≡ None) }
    ensures fails { IfSome node.old.session (λ s. s.stage ≡ stages.Spent → result ≡ no_memory) }
    ensures lasts { IfSome node.old.session (λ s. s.stage ≡ stages.Waits → result ≢ no_memory) }
    ensures same_other { result ≡ other_waits → node.new.session ≡ node.old.session }
    ensures same_closed { result ≡ closed → node.new.session ≡ None }
    ensures unwritten { result ≢ done → answer.new ≡ answer.old }
    ensures unsaid { result ≢ done → result ≢ no_room → length.new ≡ length.old }
    ensures numbers { result ≢ done → result ≢ no_memory → result ≢ no_room → result ≢ closed
        → result ≡ other_waits }
{
    let Some(parts) = replace(node, Handle::closed()).take(alloc) else {
        return CLOSED;
    };
    let mut session = parts.into_box();
    let end = session.step(alloc, form, asked, answer, length);
    *node = Handle::of(RawBox::of(session));
    end.number()
}

/// Gives a line its answer: 0, and the answer stands at the head of `answer`, and its length in `length`. Else nothing has its answer
/// that had none: 1 where there is no memory, and from then on; 2 where the answer is longer than there is room, and then `length`
/// says how long it is, and it waits until the same line comes again; 3 where the handle is closed; 6 where the answer to another line
/// or to an event waits.
#[unsafe(no_mangle)]
pub extern "C" fn muoswyld_step(
    alloc: Global,
    node: &mut Handle,
    line: &[u8],
    answer: &mut [u8],
    length: &mut usize,
) -> i32
    ensures told { result ≡ done → Between node.old.session node.new.session
        (λ old new. Told old (a_line line.now) new answer.old answer.new length.new) }
    ensures no_room { result ≡ no_room → Between node.old.session node.new.session
        (λ old new. FoundNoRoom old (a_line line.now) new answer.old length.new) }
    ensures no_memory { result ≡ no_memory → Between node.old.session node.new.session
        (λ old new. new.stage ≡ stages.Spent) }
    ensures other { result ≡ other_waits → Between node.old.session node.new.session
        (λ old new. WaitsForOther old (a_line line.now)) }
    ensures closed { (result ≡ closed) ↔ (node.old.session ≡ None) }
    ensures fails { IfSome node.old.session (λ s. s.stage ≡ stages.Spent → result ≡ no_memory) }
    ensures lasts { IfSome node.old.session (λ s. s.stage ≡ stages.Waits → result ≢ no_memory) }
    ensures same_other { result ≡ other_waits → node.new.session ≡ node.old.session }
    ensures same_closed { result ≡ closed → node.new.session ≡ None }
    ensures unwritten { result ≢ done → answer.new ≡ answer.old }
    ensures unsaid { result ≢ done → result ≢ no_room → length.new ≡ length.old }
    ensures numbers { result ≢ done → result ≢ no_memory → result ≢ no_room → result ≢ closed
        → result ≡ other_waits }
{
    ask(alloc, node, AskForm::Line, line, answer, length)
}

/// Gives an event as bytes its answer as bytes (docs/EMBEDDING.md, "The binary call"), with the numbers of `muoswyld_step`. It is the
/// same node: after all lines and events that have their answers.
#[unsafe(no_mangle)]
pub extern "C" fn muoswyld_do(
    alloc: Global,
    node: &mut Handle,
    event: &[u8],
    answer: &mut [u8],
    length: &mut usize,
) -> i32
    ensures told { result ≡ done → Between node.old.session node.new.session
        (λ old new. Told old (an_event event.now) new answer.old answer.new length.new) }
    ensures no_room { result ≡ no_room → Between node.old.session node.new.session
        (λ old new. FoundNoRoom old (an_event event.now) new answer.old length.new) }
    ensures no_memory { result ≡ no_memory → Between node.old.session node.new.session
        (λ old new. new.stage ≡ stages.Spent) }
    ensures other { result ≡ other_waits → Between node.old.session node.new.session
        (λ old new. WaitsForOther old (an_event event.now)) }
    ensures closed { (result ≡ closed) ↔ (node.old.session ≡ None) }
    ensures fails { IfSome node.old.session (λ s. s.stage ≡ stages.Spent → result ≡ no_memory) }
    ensures lasts { IfSome node.old.session (λ s. s.stage ≡ stages.Waits → result ≢ no_memory) }
    ensures same_other { result ≡ other_waits → node.new.session ≡ node.old.session }
    ensures same_closed { result ≡ closed → node.new.session ≡ None }
    ensures unwritten { result ≢ done → answer.new ≡ answer.old }
    ensures unsaid { result ≢ done → result ≢ no_room → length.new ≡ length.old }
    ensures numbers { result ≢ done → result ≢ no_memory → result ≢ no_room → result ≢ closed
        → result ≡ other_waits }
{
    ask(alloc, node, AskForm::Event, event, answer, length)
}

/// Closes a handle, and gives its memory back: 0, or 3 where it is closed.
#[unsafe(no_mangle)]
pub extern "C" fn muoswyld_close(alloc: Global, node: &mut Handle) -> i32
    ensures closed { node.new.session ≡ None }
    ensures number { result ≡ number_closing node.old.session }
{
    match replace(node, Handle::closed()).take(alloc) {
        Some(parts) => {
            drop(parts.into_box());
            DONE
        }
        None => CLOSED,
    }
}
