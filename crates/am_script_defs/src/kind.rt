ghost use Rattle.std.specs.Prelude.{◌≡◌};
ghost use Rattle.am_script_defs.specs.Events.{kind_of_word, keys_of};

use crate::key::ScriptKey;

/// The kinds of events, one for each act.
#[derive(Clone, Copy)]
pub enum EventKind {
    Send,
    Done,
    Take,
    Join,
    State,
    Leave,
    Reset,
    Ask,
    GiveUp,
    Stop,
    Tick,
    Hear,
    Cut,
    Return,
}

impl EventKind {
    /// The kind of a word; None where it is the word of none.
    #[tactic(auto, unfolding(crate::specs::Events::kind_of_word))]
    pub fn of(word: &str) -> Option<EventKind>
        ensures { result ≡ kind_of_word word.now }
    {
        match word {
            "send" => Some(EventKind::Send),
            "done" => Some(EventKind::Done),
            "take" => Some(EventKind::Take),
            "join" => Some(EventKind::Join),
            "state" => Some(EventKind::State),
            "leave" => Some(EventKind::Leave),
            "reset" => Some(EventKind::Reset),
            "ask" => Some(EventKind::Ask),
            "giveup" => Some(EventKind::GiveUp),
            "stop" => Some(EventKind::Stop),
            "tick" => Some(EventKind::Tick),
            "hear" => Some(EventKind::Hear),
            "cut" => Some(EventKind::Cut),
            "return" => Some(EventKind::Return),
            _ => None,
        }
    }

    /// The keys that its events may have.
    pub fn keys(self) -> &'static [ScriptKey]
        ensures { result.now ≡ keys_of self }
    {
        match self {
            EventKind::Send => &[ScriptKey::Do, ScriptKey::Node, ScriptKey::Body],
            EventKind::Done => &[ScriptKey::Do, ScriptKey::Node, ScriptKey::Req],
            EventKind::Take => &[ScriptKey::Do, ScriptKey::Node],
            EventKind::Join => &[ScriptKey::Do, ScriptKey::Node],
            EventKind::State => &[ScriptKey::Do, ScriptKey::Node],
            EventKind::Leave => &[ScriptKey::Do, ScriptKey::Node],
            EventKind::Reset => &[
                ScriptKey::Do,
                ScriptKey::Node,
                ScriptKey::Least,
                ScriptKey::Resilience,
            ],
            EventKind::Ask => &[ScriptKey::Do, ScriptKey::Node, ScriptKey::Round],
            EventKind::GiveUp => &[
                ScriptKey::Do,
                ScriptKey::Node,
                ScriptKey::Name,
                ScriptKey::Life,
            ],
            EventKind::Stop => &[ScriptKey::Do, ScriptKey::Node],
            EventKind::Tick => &[ScriptKey::Do, ScriptKey::Node],
            EventKind::Hear => &[ScriptKey::Do, ScriptKey::Node, ScriptKey::Packet],
            EventKind::Cut => &[
                ScriptKey::Do,
                ScriptKey::Node,
                ScriptKey::Packet,
                ScriptKey::Keep,
            ],
            EventKind::Return => &[ScriptKey::Do, ScriptKey::Node],
        }
    }
}
