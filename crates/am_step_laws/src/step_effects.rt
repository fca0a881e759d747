ghost use Rattle.am_step_laws.specs.Events.{EventsHaveEffects};
ghost use Rattle.am_step_laws.specs.Effects.{StepsHaveEffects, HearingHasEffects, RefusingHasEffects};

/// Each step of a node has its effect, whatever the event.
pub fn each_step_has_its_effect()
    ensures { StepsHaveEffects }
{}

/// And so has the hearing of each packet.
pub fn each_hearing_has_its_effect()
    ensures { HearingHasEffects }
{}

/// And what is made of bytes that are no packet.
pub fn each_refusal_has_its_effect()
    ensures { RefusingHasEffects }
{}

/// Each event does nothing, stops a name, begins a life, or is a step of the acting name with its effect.
pub fn each_event_has_its_effect()
    ensures { EventsHaveEffects }
{}
