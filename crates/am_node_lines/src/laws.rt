//! What a node says of a letter is a line.

ghost use Rattle.am_node_lines.specs.Laws.{LettersAreLines};

/// A letter's part of an answer, after the word `hear`, is a line by which it is heard.
pub fn letters_are_lines()
    ensures { LettersAreLines }
{}
