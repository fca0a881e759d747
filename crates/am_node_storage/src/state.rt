ghost use Rattle.std.specs.Prelude.{◌≡◌, ◌≤◌, ◌<◌, ◌-◌, true};
ghost use Rattle.am_base.specs.Most.{greatest_number};
ghost use Rattle.am_base.specs.Lists.{top_of_log, log_members_at};

use crate::log::Log;
use am_base::entry::{Entry, EntryRef};
use am_base::founding::Founding;
use am_base::name::{Name, Stamp};
use am_base::names::Names;
use std::marker::Model;

/// A node's part of a group: its log, what it has promised, and how far the list is told, accepted and taken.
/// Contracts see it as these, with the log's list.
#[derive(Drop)]
pub struct Core<L: Log> {
    /// The node's name.
    pub who: Name,
    /// How the group began.
    pub rules: Founding,
    /// What it keeps of the list.
    pub log: L,
    /// The greatest stamp that it has promised to.
    pub promise: Stamp,
    /// How far the list is accepted, as far as it was told.
    pub told: u32,
    /// How far its list is accepted.
    pub acc: u32,
    /// How far its application has taken the list.
    pub taken: u32,
    /// The number from which on its application is given the list.
    pub start: u32,
}

impl<L: Log> Model for Core<L> {
    ghost use Rattle.std.specs.Prelude.{◌≡◌, ◌+◌};
    ghost use Rattle.am_node_defs.specs.Cores.{CoreState, CoreIsWithinLimits};

    ghost Value = { CoreState };

    ghost view = { λ c. record {
      who = c.who;
      rules = c.rules;
      log = L.list c.log;
      base = (L.list c.log).start;
      promise = c.promise;
      told = c.told;
      acc = c.acc;
      taken = c.taken;
      start = c.start;
    } };

    ghost invariant = { λ c. CoreIsWithinLimits (L.list c.log) (L.capacity c.log) c.rules c.promise c.acc c.taken };
}

/// Whether the entry of a number is a Data, which changes no member.
#[tactic(auto, using(am_node_defs::proofs::Members::members_at_number_of_data))]
fn is_data<L: Log>(log: &L, number: u32) -> bool
    requires low { (L.list log.now).start < number }
    requires high { number ≤ top_of_log (L.list log.now) }
    ensures { result ≡ true → log_members_at (L.list log.now) number
        ≡ log_members_at (L.list log.now) (number - 1) }
{
    matches!(log.entry(number), Some(Entry::Data { .. }))
}

impl<L: Log> Core<L> {
    ghost use Rattle.std.specs.Prelude.{◌+◌, length};
    ghost use Rattle.am_base.specs.Names.{has};
    ghost use Rattle.am_base.specs.Limits.{EntryIsInRange};
    ghost use Rattle.am_base.specs.Lists.{image_of_log, members_of_image, fits, log_with_entry};
    ghost use Rattle.am_node_defs.specs.Cores.{CoreChangesAlike, CoreAddsEntry, CoreTellsAlike, advance_core, members_since_accepted, trim_core_to, trim_core_list, CoreFrontsAreInOrder};

    /// What is accepted goes on to what is told, as far as the list is stored; and who joined passes over what is
    /// accepted below its Join.
    #[tactic(auto, using(am_node_defs::proofs::CoreLaws::core_change_rules), unfolding(am_node_defs::specs::Cores::raise_accepted_to_told, am_node_defs::specs::Cores::pass_over_below_join))]
    pub fn advance(&mut self)
        ensures value { self.new ≡ advance_core self.old }
        ensures keeps { CoreChangesAlike advance_core self.old self.new }
        ensures order { CoreFrontsAreInOrder self.new }
    {
        let most = self.told.min(self.log.top());
        self.acc = self.acc.max(most);
        if self.start > 1 && self.taken < self.start - 1 {
            self.taken = self.taken.max(self.acc.min(self.start - 1));
        }
    }

    /// Trims the log up to a number, where that is above its base.
    #[tactic(auto, using(am_node_defs::proofs::CoreLaws::core_change_rules))]
    pub fn trim_to(&mut self, base: u32)
        requires { base ≤ self.old.taken }
        ensures value { self.new ≡ trim_core_list base self.old }
        ensures keeps { CoreChangesAlike (trim_core_to base) self.old self.new }
        ensures order { CoreFrontsAreInOrder self.new }
    {
        if self.log.base() < base {
            self.log.trim(base);
        }
    }

    /// Adds an entry at the end.
    #[tactic(auto, using(am_node_defs::proofs::CoreLaws::core_change_rules))]
    pub fn push(&mut self, entry: &EntryRef)
        requires fits { fits (image_of_log self.old.log) entry.now ≡ true }
        requires room { length self.old.log.entries < self.old.rules.window + 15 }
        requires entry { EntryIsInRange entry.now }
        requires number { top_of_log self.old.log < greatest_number }
        ensures value { self.new ≡ record self.old { log = log_with_entry self.old.log entry.now } }
        ensures adds { CoreAddsEntry entry.now self.old self.new }
        ensures order { CoreFrontsAreInOrder self.new }
    {
        self.log.push(entry);
    }

    /// All who are members after some number from what is accepted on.
    #[tactic(auto, using(am_node_defs::proofs::CoreLaws::unions_rules))]
    pub fn since_accepted(&self) -> Names
        ensures value { result ≡ members_since_accepted self.now }
        ensures model { CoreTellsAlike members_since_accepted self.now result }
    {
        let mut names = self.log.members_after(self.acc);
        for number in self.acc..self.log.top() {
            if !is_data(&self.log, number + 1) {
                names = names.union(self.log.members_after(number + 1));
            }
        }
        names
    }

    /// Whether the node is a member after the last entry.
    #[tactic(auto, using(am_node_defs::proofs::Ends::image_top_rules))]
    pub fn is_member(&self) -> bool
        ensures { result ≡ has (members_of_image (image_of_log self.now.log)) self.now.who }
    {
        self.log.members_after(self.log.top()).has(self.who)
    }
}
