ghost use Rattle.std.specs.Prelude.{[]};
ghost use Rattle.am_race_laws.specs.Lawful.{IsLawfulRecord};

use am_shared_journal::Law;
use std::marker::Brand;

/// Which race it is: its wire, and its plan. Each race picks it.
pub trait Racing {
    ghost use Rattle.atomic_table.specs.Seated.{TableId};
    ghost use Rattle.am_group.specs.declared.plan.RacePlan.{RacePlan};

    ghost wire: { TableId };

    ghost plan: { RacePlan };
}

impl Racing for Brand {
    ghost use Rattle.std.specs.Prelude.{[]};

    ghost wire = { record { words = 0; slots = 0; views_name = 0; atom = 0; block = 0; offset = 0; slot_names = [] } };

    ghost plan = { record { founding = record { founders = []; resilience = 0; window = 0; pb_up_to = 0 }; seed_number = 0; loss = 0; repeat = 0; turns = 0; threads = [] } };
}

/// The law of a race's journal: each record is what its event gives, each turn is one of its call, and a name that stopped
/// does nothing more.
pub struct RaceLaw;

impl Law for RaceLaw {
    ghost use Rattle.am_race_laws.specs.Lawful.{IsLawfulRecord};

    ghost next = { IsLawfulRecord };
}
