ghost use Rattle.std.specs.Prelude.{◌≡◌, ◌↔◌, ◌-◌, ◌++◌, OnOk, OnErr, IfOk, Err, length, slice_get};
ghost use Rattle.std.specs.Option.{option_copied, option_to_list};
ghost use Rattle.am_base.specs.Most.{most_events_of_run};
ghost use Rattle.am_base.specs.Names.{place_of_name};
ghost use Rattle.am_group.specs.Deliveries.{deliveries};
ghost use Rattle.am_group.specs.declared.event.Act.TheVariants as acts;
ghost use Rattle.am_group_defs.specs.Settle.{event_at};
ghost use Rattle.am_group_defs.specs.World.{current};
ghost use Rattle.am_world.specs.Runs.{play_after, replay};
ghost use Rattle.am_world.specs.declared.world.WorldRefusal.{WorldRefusal};

use crate::world::{World, WorldRefusal};
use am_base::entry::Entry;
use am_base::name::Name;
use am_group::event::{Act, Event, Record};
use am_journal::delivered::given_to;

impl World {
    /// The record of the last event; None exactly where none was done.
    pub fn last_record(&self) -> Option<&Record>
        ensures { option_copied result
            ≡ slice_get (replay self.now).records (length (replay self.now).records - 1) }
    {
        self.journal().records().last()
    }

    /// The current name of a place takes the next entry, and this is it, with its number; None exactly where it was given none. After
    /// a refusal all is as it was. It is Spent exactly where 100,000 events were done.
    pub fn take(&mut self, place: Name) -> Result<Option<(u32, Entry)>, WorldRefusal>
        ensures ok { OnOk result (self.new ≡ play_after self.old (event_at place acts.Take)) }
        ensures given { IfOk result (λ taken. deliveries (replay self.new).records (current (replay self.old) (place_of_name place))
            ≡ deliveries (replay self.old).records (current (replay self.old) (place_of_name place))
            ++ option_to_list taken) }
        ensures spent { (result ≡ Err WorldRefusal.Spent) ↔ (length self.old.events ≡ most_events_of_run) }
        ensures err { OnErr result (self.new ≡ self.old) }
    {
        let name = self.name_at(place);
        self.step(&Event {
            node: place,
            act: Act::Take,
        })?;
        let Some(last) = self.last_record() else {
            return Ok(None);
        };
        match given_to(last, name) {
            Some((number, entry)) => Ok(Some((number, entry.to_entry()))),
            None => Ok(None),
        }
    }
}
