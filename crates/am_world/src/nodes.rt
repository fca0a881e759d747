ghost use Rattle.std.specs.Prelude.{◌≡◌, ◌+◌, ◌-◌, ◌<◌, ◌≤◌, ◌++◌, ◌∷◌, [], length, max, take, drop, vec_len, vec_capacity, OnOk, IfOk};
ghost use Rattle.am_group_defs.specs.World.{list_with_accepted, list_after_step};
ghost use Rattle.am_node.specs.Stands.{state_of};

use am_base::NoMemory;
use am_base::entry::Entry;
use am_node::node::Node;

/// Makes room for so many entries in all.
pub fn make_room(group: &mut Vec<Entry>, most: usize) -> Result<(), NoMemory>
    ensures items { group.new.items ≡ group.old.items }
    ensures stored { vec_len group.new ≡ vec_len group.old }
    ensures room { OnOk result (max most (vec_len group.new) ≤ vec_capacity group.new) }
{
    if group.len() < most {
        group.reserve(most - group.len())?;
    }
    Ok(())
}

/// The list gets a copy of an entry. It takes no memory.
#[inline(never)]
fn add_entry(group: &mut Vec<Entry>, entry: &Entry)
    requires { vec_len group.old < vec_capacity group.old }
    ensures items { group.new.items ≡ group.old.items ++ entry.now ∷ [] }
    ensures len { vec_len group.new ≡ vec_len group.old + 1 }
    ensures capacity { vec_capacity group.new ≡ vec_capacity group.old }
{
    group.push_reserved(entry.copy());
}

/// The list gets what a node has accepted beyond it.
fn add_accepted(group: &mut Vec<Entry>, node: &Node)
    requires base { (state_of node.now).core.base ≤ vec_len group.old }
    requires room { max (state_of node.now).core.acc (vec_len group.old) ≤ vec_capacity group.old }
    ensures { group.new.items ≡ list_with_accepted group.old.items (state_of node.now).core }
{
    for before in group.len()..node.accept_front() as usize {
        match node.entry(before as u32 + 1) {
            Some(entry) => add_entry(group, entry),
            None => unreachable!(),
        }
    }
}

/// The group list after a step of this node: a node in a view of its own adds to it.
pub fn grow(group: &mut Vec<Entry>, node: &Node)
    requires base { (state_of node.now).core.base ≤ vec_len group.old }
    requires room { max (state_of node.now).core.acc (vec_len group.old) ≤ vec_capacity group.old }
    ensures { group.new.items ≡ list_after_step group.old.items (state_of node.now) }
{
    if node.view().by == node.name() {
        add_accepted(group, node);
    }
}
