//! Scripts of everything, with cut packets. Written by tools/rows.py.

ghost use Rattle.am_computed_cases.specs.ScenariosAll.{All1, All10, All2, All3, All4, All5, All6, All7, All8, All9};

/// The definitions give these texts for these scripts.
pub fn texts()
    ensures all_1 { All1 }
    ensures all_10 { All10 }
    ensures all_2 { All2 }
    ensures all_3 { All3 }
    ensures all_4 { All4 }
    ensures all_5 { All5 }
    ensures all_6 { All6 }
    ensures all_7 { All7 }
    ensures all_8 { All8 }
    ensures all_9 { All9 }
{}
