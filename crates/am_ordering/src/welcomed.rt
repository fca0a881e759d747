ghost use Rattle.std.specs.Prelude.{◌≡◌, ◌≢◌, ◌||◌, true, false, nat_lt};
ghost use Rattle.am_node_parts.specs.Prelude.{NumberIsInRange, StampIsInRange, ImageIsInRange, row_of_name, top_of_log, stamp_is_less, is_member, node_of};
ghost use Rattle.am_model.specs.Node.{is_asking_status};
ghost use Rattle.am_model.specs.Joining.{node_of_welcomed, core_of_welcomed, ask_for_next_entries, welcome_row};
ghost use Rattle.am_node_parts.specs.Replies.{Replies};
ghost use Rattle.am_ordering.specs.Joining.{is_unfit};

use am_base::image::Image;
use am_base::name::{Name, Stamp};
use am_base::outcome::Outcome;
use am_model::status::Status;
use am_node_parts::parts::Parts;
use am_node_parts::reply::{Note, Reply, note_to, quiet, saying};
use am_node_storage::log::Log;
use am_node_storage::state::Core;
use am_packet::image_ref::ImageRef;

/// What a Welcome tells, but for its image.
#[derive(Clone, Copy)]
pub struct Welcome {
    /// The sequencer that sent it.
    pub sender: Name,
    /// The sequencer's view.
    pub stamp: Stamp,
    /// The number at which the list begins.
    pub base: u32,
    /// The number of the name's Join.
    pub join: u32,
}

/// Whether the node has promised to a greater stamp.
fn has_promised_more(parts: &Parts, stamp: Stamp) -> bool
    ensures { result ≡ stamp_is_less stamp parts.now.core.promise }
{
    stamp.is_below(parts.core.promise)
}

/// Whether a name has joined already by what an image tells.
fn has_joined(image: &Image, name: Name) -> bool
    ensures { result ≡ nat_lt 0 (row_of_name image.now name).joined }
{
    let row = image.rows[usize::from(name.place())];
    row.life == name.life() && 0 < row.joined
}

/// Whether a Welcome can't be this node's.
fn is_unfit(parts: &Parts, told: &Welcome, image: &Image) -> bool
    ensures { result ≡ is_unfit (node_of parts.now) told.now.stamp told.now.base told.now.join
        image.now }
{
    if told.join <= told.base || u32::from(parts.core.rules.window()) + 15 < told.join - told.base {
        return true;
    }
    told.stamp.is_below(image.view) || has_joined(image, parts.core.who)
}

/// A core's list begins at the base, with what was told up to there.
fn begin_core<L: Log>(core: &mut Core<L>, told: &Welcome, image: &Image)
    requires blank { top_of_log core.old.log ≡ 0 }
    requires stamp { StampIsInRange told.now.stamp }
    requires base { NumberIsInRange told.now.base }
    requires image { ImageIsInRange image.now }
    ensures { core.new ≡ core_of_welcomed core.old told.now.stamp told.now.base told.now.join image.now }
{
    core.log.begin(told.base, image);
    core.promise = told.stamp;
    core.told = told.base;
    core.acc = told.base;
    core.taken = told.base;
    core.start = told.join;
}

/// The list begins at the base, with what was told up to there, and the node is a member.
fn begin(parts: &mut Parts, told: &Welcome, image: &Image)
    requires asking { is_asking_status (node_of parts.old).status ≡ true }
    requires other { told.now.stamp.by ≢ parts.old.core.who }
    requires fits { is_unfit (node_of parts.old) told.now.stamp told.now.base told.now.join
        image.now ≡ false }
    requires stamp { StampIsInRange told.now.stamp }
    requires base { NumberIsInRange told.now.base }
    requires image { ImageIsInRange image.now }
    ensures { node_of parts.new ≡ node_of_welcomed (node_of parts.old) told.now.stamp told.now.base
        told.now.join image.now }
{
    let _before = parts.accept_front(); // for its order
    begin_core(&mut parts.core, told, image);
    parts.status = Status::Member;
}

/// A joiner whose list has begun asks for what comes next.
fn ask_on<'a>(parts: &Parts, told: &Welcome) -> Reply<'a>
    ensures { Replies (ask_for_next_entries (node_of parts.now) told.now.sender told.now.stamp told.now.join)
        result (node_of parts.now) }
{
    let answer = Outcome::Welcomed { number: told.join };
    if parts.has_view(told.stamp) {
        return saying(answer, note_to(told.sender, Note::Nack));
    }
    saying(answer, note_to(told.sender, Note::Fetch))
}

/// Takes a Welcome of the sequencer of a view, at a node that has asked to join or is a member. Known: it is a member.
/// Elsewhere: the node has promised to more. Unfit: the Join is out of bounds, the image is of a later view, or the name
/// stands in it. Else the list begins at the base and the node asks for what comes next: Welcomed.
#[inline(never)]
pub fn on_welcome<'a>(parts: &mut Parts, told: &Welcome, image: &ImageRef) -> Reply<'a>
    requires hears { (is_member (node_of parts.old).status || is_asking_status (node_of parts.old).status)
        ≡ true }
    requires other { told.now.stamp.by ≢ parts.old.core.who }
    requires stamp { StampIsInRange told.now.stamp }
    requires base { NumberIsInRange told.now.base }
    requires image { ImageIsInRange image.now }
    ensures { Replies (welcome_row (node_of parts.old) told.now.sender told.now.stamp told.now.base
        told.now.join image.now) result (node_of parts.new) }
{
    if parts.is_member() {
        return quiet(Outcome::Known);
    }
    if has_promised_more(parts, told.stamp) {
        return quiet(Outcome::Elsewhere);
    }
    let image = image.to_image();
    if is_unfit(parts, told, &image) {
        return quiet(Outcome::Unfit);
    }
    begin(parts, told, &image);
    ask_on(parts, told)
}
