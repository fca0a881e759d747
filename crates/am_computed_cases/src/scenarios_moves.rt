//! Scripts of joins and leaves. Written by tools/rows.py.

ghost use Rattle.am_computed_cases.specs.ScenariosMoves.{Moves1, Moves10, Moves2, Moves3, Moves4, Moves5, Moves6, Moves7, Moves8, Moves9};

/// The definitions give these texts for these scripts.
pub fn texts()
    ensures moves_1 { Moves1 }
    ensures moves_10 { Moves10 }
    ensures moves_2 { Moves2 }
    ensures moves_3 { Moves3 }
    ensures moves_4 { Moves4 }
    ensures moves_5 { Moves5 }
    ensures moves_6 { Moves6 }
    ensures moves_7 { Moves7 }
    ensures moves_8 { Moves8 }
    ensures moves_9 { Moves9 }
{}
