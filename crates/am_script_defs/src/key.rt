ghost use Rattle.std.specs.Prelude.{◌≡◌};
ghost use Rattle.am_script_defs.specs.Keys.{key_word};

/// The keys of scripts, and `Top` for the whole document.
#[derive(Clone, Copy)]
pub enum ScriptKey {
    Top,
    Play,
    Race,
    Founders,
    Resilience,
    Window,
    PbUpTo,
    Settle,
    Events,
    Seed,
    Loss,
    Repeat,
    Turns,
    Threads,
    Node,
    Calls,
    Do,
    Body,
    Req,
    Least,
    Round,
    Name,
    Life,
    Packet,
    Keep,
}

/// The words of the keys, in the order of `ScriptKey`.
const WORDS: [&str; 25] = [
    "",
    "play",
    "race",
    "founders",
    "resilience",
    "window",
    "pb_up_to",
    "settle",
    "events",
    "seed",
    "loss",
    "repeat",
    "turns",
    "threads",
    "node",
    "calls",
    "do",
    "body",
    "req",
    "least",
    "round",
    "name",
    "life",
    "packet",
    "keep",
];

impl ScriptKey {
    /// Its word in a script.
    pub fn word(self) -> &'static str
        ensures { result.now ≡ key_word self }
    {
        WORDS[self as usize]
    }
}
