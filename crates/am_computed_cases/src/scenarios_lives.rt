//! Scripts of returns and raised resilience. Written by tools/rows.py.

ghost use Rattle.am_computed_cases.specs.ScenariosLives.{Lives1, Lives10, Lives2, Lives3, Lives4, Lives5, Lives6, Lives7, Lives8, Lives9};

/// The definitions give these texts for these scripts.
pub fn texts()
    ensures lives_1 { Lives1 }
    ensures lives_10 { Lives10 }
    ensures lives_2 { Lives2 }
    ensures lives_3 { Lives3 }
    ensures lives_4 { Lives4 }
    ensures lives_5 { Lives5 }
    ensures lives_6 { Lives6 }
    ensures lives_7 { Lives7 }
    ensures lives_8 { Lives8 }
    ensures lives_9 { Lives9 }
{}
