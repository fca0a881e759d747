ghost use Rattle.std.specs.Prelude.{◌≡◌, ◌≢◌, ◌<◌, ◌≤◌, true, false, IfNone};
ghost use Rattle.am_node_parts.specs.Prelude.{greatest_number, NumberIsInRange, is_sequencer, top, node_of, MayServe};
ghost use Rattle.am_model.specs.Sequencing.{has_no_join, ack_row, nack_row, request_row, answer_request};
ghost use Rattle.am_node_parts.specs.Replies.{Replies};
ghost use Rattle.am_ordering.specs.Sequencing.{report_refusal};

use crate::numbering::{data_note, data_of, put_off, request_refusal};
use crate::serving::serve_again;
use am_base::body::BodyRef;
use am_base::image::Report;
use am_base::name::Name;
use am_base::outcome::Outcome;
use am_node_parts::parts::Parts;
use am_node_parts::reply::{Reply, StepAnswer, Telling, answering, quiet, saying};

/// A send of another name, as its packet tells it.
#[derive(Drop)]
pub struct Request<'a> {
    /// Whose send it is.
    pub from: Name,
    /// What its sender reports.
    pub report: Report,
    /// Which of its sender's sends it is.
    pub req: u32,
    /// What is sent.
    pub body: BodyRef<'a>,
    /// Whether the body was spread.
    pub by_order: bool,
}

/// What is told of a report that isn't taken; None where a Join of its sender stands in the list, and it is one of this
/// list.
fn report_refusal(parts: &Parts, from: Name, report: Report) -> Option<Outcome>
    ensures value { result ≡ report_refusal (node_of parts.now) from report }
    ensures known { IfNone result (has_no_join (node_of parts.now) from ≡ false) }
    ensures stored { IfNone result (report.stored ≤ top (node_of parts.now)) }
{
    if parts.is_unknown(from) {
        return Some(Outcome::Stranger);
    }
    if !parts.report_fits(report) {
        return Some(Outcome::Unfit);
    }
    None
}

/// Takes a report of another name. Stranger: no Join of its sender stands in the list. Unfit: it isn't one of this list.
/// Else Accepted where what is accepted rises, and Noted.
pub fn on_ack<'a>(parts: &mut Parts, from: Name, report: Report) -> Reply<'a>
    requires { from ≢ parts.old.core.who }
    ensures { Replies (ack_row (node_of parts.old) from report) result (node_of parts.new) }
{
    let since = parts.accept_front();
    if let Some(answer) = report_refusal(parts, from, report) {
        return quiet(answer);
    }
    parts.report(from, report);
    answering(StepAnswer::Accepted { since }, Telling::Nothing)
}

/// Takes a report of another name that asks for what comes next. Stranger: no Join of its sender stands in the list.
/// Unfit: it isn't one of this list. Behind: what its sender stored is trimmed. Else the entries above that go to it,
/// eight at most: Served.
pub fn on_nack<'a>(parts: &mut Parts, from: Name, report: Report) -> Reply<'a>
    requires { from ≢ parts.old.core.who }
    ensures { Replies (nack_row (node_of parts.old) from report) result (node_of parts.new) }
{
    if let Some(answer) = report_refusal(parts, from, report) {
        return quiet(answer);
    }
    parts.take_report(from, report);
    serve_again(parts, from, report.stored)
}

/// Does what a send asks for whose report is taken.
fn answer_request<'a>(parts: &mut Parts, request: &Request<'a>) -> Reply<'a>
    requires leads { is_sequencer (node_of parts.old) ≡ true }
    requires known { has_no_join (node_of parts.old) request.now.from ≡ false }
    requires top { top (node_of parts.old) < greatest_number }
    requires req { NumberIsInRange request.now.req }
    ensures { Replies (answer_request (node_of parts.old) request.now.from request.now.req
        request.now.body request.now.by_order) result (node_of parts.new) }
{
    let row = parts.row(request.from);
    if let Some(answer) = request_refusal(row, request.req) {
        return quiet(answer);
    }
    if !parts.has_room() {
        return put_off(parts, request.from, request.req);
    }
    let number = parts.next_number();
    let to = parts.others();
    parts.push(&data_of(request));
    let note = data_note(number, request);
    saying(Outcome::Numbered { number }, Telling::Note { to, note }).numbering()
}

/// Takes a send of another name, with its report. Stranger: no Join of its sender stands in the list, or it has left.
/// Unfit: the report isn't one of this list. Again: the send is numbered already. Early: it isn't its sender's next one.
/// Held: there is no room, and the members are polled. Else the send is Numbered. The node must be the sequencer, and its
/// last number not the greatest.
pub fn on_request<'a>(parts: &mut Parts, request: &Request<'a>) -> Reply<'a>
    requires serves { MayServe (node_of parts.old) request.now.from }
    requires req { NumberIsInRange request.now.req }
    ensures { Replies (request_row (node_of parts.old) request.now.from request.now.report
        request.now.req request.now.body request.now.by_order) result (node_of parts.new) }
{
    if let Some(answer) = report_refusal(parts, request.from, request.report) {
        return quiet(answer);
    }
    parts.take_report(request.from, request.report);
    answer_request(parts, request)
}
