//! Scripts of sends and losses. Written by tools/rows.py.

ghost use Rattle.am_computed_cases.specs.ScenariosFirst.{First1, First10, First2, First3, First4, First5, First6, First7, First8, First9};

/// The definitions give these texts for these scripts.
pub fn texts()
    ensures first_1 { First1 }
    ensures first_10 { First10 }
    ensures first_2 { First2 }
    ensures first_3 { First3 }
    ensures first_4 { First4 }
    ensures first_5 { First5 }
    ensures first_6 { First6 }
    ensures first_7 { First7 }
    ensures first_8 { First8 }
    ensures first_9 { First9 }
{}
