ghost use Rattle.std.specs.Prelude.{◌≡◌, ◌++◌, OnOk};
ghost use Rattle.am_node.specs.Stands.{state_of};
ghost use Rattle.am_packet.specs.Spelling.{set_bytes};
ghost use Rattle.am_bytes.specs.Answers.{node_standing, role_number, flags_of, role_bytes, view_bytes, fronts_bytes, standing_bytes};

use crate::field::{put_byte, put_number, put_set, put_stamp};
use am_base::NoMemory;
use am_base::name::Stamp;
use am_base::names::Names;
use am_model::info::Role;
use am_node::node::Node;

/// How a node stands.
#[derive(Clone, Copy, Debug)]
pub struct NodeStanding {
    /// What it is to its group.
    pub role: Role,
    /// Whether there is an entry to take.
    pub has_next: bool,
    /// Whether a send of its own isn't settled.
    pub is_sending: bool,
    /// Whether it is leaving.
    pub is_leaving: bool,
    /// The stamp of the last View of its list.
    pub view: Stamp,
    /// The number of the last View.
    pub view_number: u32,
    /// The members after its last entry.
    pub members: Names,
    /// The resilience of the last View.
    pub resilience: u8,
    /// The number up to which its list is trimmed.
    pub base: u32,
    /// The number up to which its application has taken entries.
    pub taken: u32,
    /// The number up to which it knows the list to be accepted.
    pub accepted: u32,
    /// The number of its last entry.
    pub top: u32,
    /// The names whose votes a ballot of its own still wants.
    pub waits_for: Names,
}

impl NodeStanding {
    /// That of a node.
    pub fn of(node: &Node) -> NodeStanding
        ensures { result ≡ node_standing (state_of node.now) }
    {
        let info = node.info();
        NodeStanding {
            role: info.role,
            has_next: node.has_next(),
            is_sending: node.is_sending(),
            is_leaving: node.is_leaving(),
            view: info.view,
            view_number: node.view_number(),
            members: info.members,
            resilience: node.resilience(),
            base: info.base,
            taken: info.taken,
            accepted: info.accepted,
            top: info.top,
            waits_for: node.waits_for(),
        }
    }

    /// Its flags, added up.
    fn flags(&self) -> u8
        ensures { result ≡ flags_of self.now.has_next self.now.is_sending self.now.is_leaving }
    {
        u8::from(self.has_next) + 2 * u8::from(self.is_sending) + 4 * u8::from(self.is_leaving)
    }

    /// Adds its role and its flags.
    #[tactic(auto, unfolding(crate::specs::Answers::role_bytes))]
    fn put_role(&self, out: &mut Vec<u8>) -> Result<(), NoMemory>
        ensures { OnOk result (out.new.items ≡ out.old.items ++ role_bytes self.now) }
    {
        put_byte(out, role_number(self.role))?;
        put_byte(out, self.flags())
    }

    /// Adds its view: the stamp, the number, the members and the resilience.
    #[tactic(auto, unfolding(crate::specs::Answers::view_bytes))]
    fn put_view(&self, out: &mut Vec<u8>) -> Result<(), NoMemory>
        ensures { OnOk result (out.new.items ≡ out.old.items ++ view_bytes self.now) }
    {
        put_stamp(out, self.view)?;
        put_number(out, self.view_number)?;
        put_set(out, self.members)?;
        put_byte(out, self.resilience)
    }

    /// Adds where its list stands.
    #[tactic(auto, unfolding(crate::specs::Answers::fronts_bytes))]
    fn put_fronts(&self, out: &mut Vec<u8>) -> Result<(), NoMemory>
        ensures { OnOk result (out.new.items ≡ out.old.items ++ fronts_bytes self.now) }
    {
        put_number(out, self.base)?;
        put_number(out, self.taken)?;
        put_number(out, self.accepted)?;
        put_number(out, self.top)
    }

    /// Adds where its list stands, and for whom a ballot waits.
    fn put_list(&self, out: &mut Vec<u8>) -> Result<(), NoMemory>
        ensures { OnOk result (out.new.items
            ≡ out.old.items ++ (fronts_bytes self.now ++ set_bytes self.now.waits_for)) }
    {
        self.put_fronts(out)?;
        put_set(out, self.waits_for)
    }

    /// Adds its bytes. After an error a part of them may have been added.
    #[tactic(auto, unfolding(crate::specs::Answers::standing_bytes))]
    pub fn put(&self, out: &mut Vec<u8>) -> Result<(), NoMemory>
        ensures { OnOk result (out.new.items ≡ out.old.items ++ standing_bytes self.now) }
    {
        self.put_role(out)?;
        self.put_view(out)?;
        self.put_list(out)
    }
}

/// The number of a role.
fn role_number(role: Role) -> u8
    ensures { result ≡ role_number role }
{
    match role {
        Role::Stranger => 0,
        Role::Asking => 1,
        Role::Member => 2,
        Role::Sequencer => 3,
        Role::Coordinator => 4,
        Role::Departed => 5,
    }
}
