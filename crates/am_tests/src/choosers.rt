use am_shared_journal_defs::choice::Choice;
use am_turn_chooser::chooser::Chooser;
use std::test::*;

/// The letter ahead, or 0, the last one that was heard, or 0, and what is chosen.
const TURNS: [(u32, u32, [u32; 2]); 7] = [
    (0, 0, [0, 0]),
    (1, 0, [1, 1]),
    (2, 1, [1, 2]),
    (0, 2, [0, 0]),
    (3, 2, [2, 3]),
    (4, 2, [3, 2]),
    (4, 2, [1, 4]),
];

/// A choice by its kind and its letter.
fn numbers_of(choice: Choice) -> [u32; 2] {
    match choice {
        Choice::Tick => [0, 0],
        Choice::Hear(number) => [1, number],
        Choice::Lose(number) => [2, number],
        Choice::Repeat(number) => [3, number],
    }
}

/// A letter's number, where there is one.
fn letter(number: u32) -> Option<u32> {
    if number == 0 { None } else { Some(number) }
}

/// The words of seed 1 and stream 1001 are, modulo 100, 61, 47, 23, 31 and 45.
#[test]
fn choices_go_by_the_words(rt: HostRuntime) {
    let mut chooser = Chooser::new(1, 1001, 25, 10);
    for (ahead, last, wanted) in &TURNS {
        let choice = chooser.choose(letter(*ahead), letter(*last));
        assert!(rt; numbers_of(choice) == *wanted);
    }
}
