//! Scripts of stops, ballots and names given up. Written by tools/rows.py.

ghost use Rattle.am_computed_cases.specs.ScenariosResets.{Resets1, Resets10, Resets2, Resets3, Resets4, Resets5, Resets6, Resets7, Resets8, Resets9};

/// The definitions give these texts for these scripts.
pub fn texts()
    ensures resets_1 { Resets1 }
    ensures resets_10 { Resets10 }
    ensures resets_2 { Resets2 }
    ensures resets_3 { Resets3 }
    ensures resets_4 { Resets4 }
    ensures resets_5 { Resets5 }
    ensures resets_6 { Resets6 }
    ensures resets_7 { Resets7 }
    ensures resets_8 { Resets8 }
    ensures resets_9 { Resets9 }
{}
