ghost use Rattle.std.specs.Prelude.{◌≡◌, ◌++◌, OnOk, codes, decimal, string_bytes};
ghost use Rattle.std.specs.List.{flat_map};
ghost use Rattle.am_model.specs.Node.{image_of_node, top};
ghost use Rattle.am_model.specs.Info.{info_of_node};
ghost use Rattle.am_node.specs.Stands.{state_of};
ghost use Rattle.am_node_lines.specs.Answers.{to_text, answer_letter_text, role_word, list_numbers_text, info_text, reply_text};

use crate::reply::LineReply;
use am_base::NoMemory;
use am_base::founding::Founding;
use am_model::info::{Info, Role};
use am_node::node::Node;
use am_packet::letter::Letter;
use am_text_output::text::{push_bytes, push_names, push_outcome, push_stamp};

/// Adds a letter's addressees, exactly: its names, with a star before them where it is for any life of their places.
#[tactic(auto, unfolding(crate::specs::Answers::to_text))]
fn push_to(out: &mut String, letter: &Letter) -> Result<(), NoMemory>
    ensures { OnOk result (string_bytes out.new ≡ string_bytes out.old ++ to_text letter.now) }
{
    if letter.is_for_any() {
        out.push_str("*")?;
    }
    push_names(out, letter.to())
}

/// Adds a letter: its addressees and its bytes.
#[tactic(auto, unfolding(crate::specs::Answers::answer_letter_text))]
fn push_letter(out: &mut String, letter: &Letter) -> Result<(), NoMemory>
    ensures { OnOk result (string_bytes out.new ≡ string_bytes out.old ++ answer_letter_text letter.now) }
{
    out.push_str(" | ")?;
    push_to(out, letter)?;
    out.push_str(" ")?;
    push_bytes(out, letter.bytes())
}

/// Adds letters in order.
fn push_letters(out: &mut String, letters: &[Letter]) -> Result<(), NoMemory>
    ensures { OnOk result (string_bytes out.new
        ≡ string_bytes out.old ++ flat_map answer_letter_text letters.now) }
{
    for letter in letters {
        push_letter(out, letter)?;
    }
    Ok(())
}

/// The word of a role.
fn role_word(role: Role) -> &'static str
    ensures { result.now ≡ role_word role }
{
    match role {
        Role::Stranger => "stranger",
        Role::Asking => "asking",
        Role::Member => "member",
        Role::Sequencer => "sequencer",
        Role::Coordinator => "coordinator",
        Role::Departed => "departed",
    }
}

/// Adds a node's resilience and the numbers of its list, with a blank around each.
#[tactic(auto, unfolding(crate::specs::Answers::list_numbers_text))]
fn push_numbers(out: &mut String, node: &Node, info: &Info) -> Result<(), NoMemory>
    requires { info.now ≡ info_of_node (state_of node.now) }
    ensures { OnOk result (string_bytes out.new
        ≡ string_bytes out.old ++ list_numbers_text (state_of node.now)) }
{
    let resilience = node.resilience();
    let base = info.base;
    let taken = info.taken;
    let accepted = info.accepted;
    let top = info.top;
    write!(out, " {resilience} {base} {taken} {accepted} {top} ")
}

/// Adds what a node knows of itself and of its group.
#[tactic(auto, unfolding(crate::specs::Answers::info_text))]
fn push_info(out: &mut String, node: &Node) -> Result<(), NoMemory>
    ensures { OnOk result (string_bytes out.new
        ≡ string_bytes out.old ++ info_text (state_of node.now)) }
{
    let info = node.info();
    out.push_str(role_word(info.role))?;
    out.push_str(" ")?;
    push_stamp(out, info.view)?;
    let number = node.view_number();
    write!(out, " {number} ")?;
    push_names(out, info.members)?;
    push_numbers(out, node, &info)?;
    push_names(out, node.waits_for())
}

/// Adds what came of a line, of the node after it: the answer without a newline.
pub fn push_reply(
    out: &mut String,
    founding: &Founding,
    node: &Node,
    reply: &LineReply,
) -> Result<(), NoMemory>
    ensures { OnOk result (string_bytes out.new ≡ string_bytes out.old
        ++ reply_text founding.now (state_of node.now) reply.now) }
{
    match reply {
        LineReply::Did { outcome, letters } => {
            push_outcome(out, founding, outcome)?;
            push_letters(out, letters.as_slice())
        }
        LineReply::Info => push_info(out, node),
        LineReply::Bad(cause) => {
            let number = cause.cause();
            write!(out, "bad line {number}")
        }
        LineReply::Spent => out.push_str("no numbers left"),
    }
}
