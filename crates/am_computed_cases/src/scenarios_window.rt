//! Scripts with ticks, small windows, spread bodies and resilience. Written by tools/rows.py.

ghost use Rattle.am_computed_cases.specs.ScenariosWindow.{Window1, Window10, Window2, Window3, Window4, Window5, Window6, Window7, Window8, Window9};

/// The definitions give these texts for these scripts.
pub fn texts()
    ensures window_1 { Window1 }
    ensures window_10 { Window10 }
    ensures window_2 { Window2 }
    ensures window_3 { Window3 }
    ensures window_4 { Window4 }
    ensures window_5 { Window5 }
    ensures window_6 { Window6 }
    ensures window_7 { Window7 }
    ensures window_8 { Window8 }
    ensures window_9 { Window9 }
{}
