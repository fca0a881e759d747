//! Worked runs of sends, ticks and losses, one for each part. Written by tools/rows.py.

ghost use Rattle.am_computed_cases.specs.WorkedSends.{Busy, CutPackets, LongBody, NoEvents, Reordering, Repeat, Settled, ShortBody, SmallestPath, SpreadLost, WindowOfOne};

/// The definitions give these texts for these scripts.
pub fn texts()
    ensures busy { Busy }
    ensures cut_packets { CutPackets }
    ensures long_body { LongBody }
    ensures no_events { NoEvents }
    ensures reordering { Reordering }
    ensures repeat { Repeat }
    ensures settled { Settled }
    ensures short_body { ShortBody }
    ensures smallest_path { SmallestPath }
    ensures spread_lost { SpreadLost }
    ensures window_of_one { WindowOfOne }
{}
