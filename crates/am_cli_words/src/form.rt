ghost use Rattle.std.specs.Prelude.{◌≡◌, ◌≤◌, [], ◌∷◌, length, map, IfSome};
ghost use Rattle.std.specs.List.{list_all};
ghost use Rattle.std.specs.Char.{is_ascii_digit};
ghost use Rattle.am_base.specs.Most.{most_events_of_run};
ghost use Rattle.am_cli_words.specs.Forms.{form_of, one_form, shown_by_word, other_form, gen_of, is_node, seed_of, numbers_of, has_options, ScriptIsShort};

use crate::node::{NodeWords, node_of};
use am_base::limits::MOST_EVENTS;

/// The numbers of `gen`: the seed, and how many events there are, 1 to 100,000.
#[derive(Clone, Copy)]
pub struct SeedAndCount {
    pub seed: u64,
    pub count: u32,
}

/// What is written of a script's run, each by the word that asks for it.
#[derive(Clone, Copy)]
pub enum RunText {
    /// `play`: its events, the one list and each node's log.
    Text,
    /// `messages`: the messages that ended in what each node was given (docs/MESSAGES.md).
    Messages,
    /// `directory`: each node's directory (docs/DIRECTORY.md).
    Directories,
    /// `snapshots`: the parts of each node's snapshot for each joiner (docs/DIRECTORY.md).
    Snapshots,
}

/// What the program's words ask for.
#[derive(Clone, Copy)]
pub enum Form {
    /// To run a script, and to write this of its run.
    Play(RunText),
    /// To run the calls of threads.
    Race,
    /// To make a run from two numbers, and to write its summary.
    Gen(SeedAndCount),
    /// To make a run from two numbers, and to write its script.
    Script(SeedAndCount),
    /// To audit a text.
    Audit,
    /// To cut a message into its parts.
    Parts,
    /// To be a node that speaks lines.
    Node(NodeWords),
}

/// Whether all bytes are decimal digits.
fn are_digits(text: &[u8]) -> bool
    ensures { result ≡ list_all is_ascii_digit text.now }
{
    text.iter().all(|digit| digit.is_ascii_digit())
}

/// The number of a text of one to twenty decimal digits; None where it is none, or none of 64 bits.
fn number_of(text: &str) -> Option<u64>
    ensures { result ≡ seed_of text.now }
{
    let digits = text.as_bytes();
    if digits.len() <= 20 && are_digits(digits) {
        return text.parse::<u64>().ok();
    }
    None
}

/// The numbers that two texts write, of which the second is 1 to 100,000.
pub(crate) fn numbers_of(seed: &str, count: &str) -> Option<SeedAndCount>
    ensures value { result ≡ numbers_of seed.now count.now }
    ensures few { IfSome result (λ numbers. numbers.count ≤ most_events_of_run) }
{
    let seed = number_of(seed)?;
    let count = number_of(count)?;
    if count < 1 || (MOST_EVENTS as u64) < count {
        return None;
    }
    Some(SeedAndCount {
        seed,
        count: count as u32,
    })
}

/// Whether words are `gen` with options of these names in turn.
fn has_options(word: &str, first: &str, second: &str, one: &str, other: &str) -> bool
    ensures { result ≡ has_options word.now first.now second.now one.now other.now }
{
    word == "gen" && first == one && second == other
}

/// The numbers of five words that are `gen` with its two options.
fn numbers_of_five(
    word: &str,
    first: &str,
    one: &str,
    second: &str,
    other: &str,
) -> Option<SeedAndCount>
    ensures value { result ≡ gen_of (word.now ∷ first.now ∷ one.now ∷ second.now ∷ other.now ∷ []) }
    ensures few { IfSome result (λ numbers. numbers.count ≤ most_events_of_run) }
{
    if has_options(word, first, second, "--seed", "--count") {
        return numbers_of(one, other);
    }
    if has_options(word, first, second, "--count", "--seed") {
        return numbers_of(other, one);
    }
    None
}

/// The form of six words: `gen` with its two options, before, between or after which `--script` stands.
fn form_of_six(words: &[&str]) -> Option<Form>
    requires { length words.now ≡ 6 }
    ensures value { result ≡ other_form (map (λ word. word.now) words.now) }
    ensures few { IfSome result ScriptIsShort }
{
    if words[1] == "--script" {
        return numbers_of_five(words[0], words[2], words[3], words[4], words[5]).map(Form::Script);
    }
    if words[3] == "--script" {
        return numbers_of_five(words[0], words[1], words[2], words[4], words[5]).map(Form::Script);
    }
    if words[5] == "--script" {
        return numbers_of_five(words[0], words[1], words[2], words[3], words[4]).map(Form::Script);
    }
    None
}

/// What a word asks for of a script's run.
fn shown_of(word: &str) -> Option<RunText>
    ensures { result ≡ shown_by_word word.now }
{
    match word {
        "play" => Some(RunText::Text),
        "messages" => Some(RunText::Messages),
        "directory" => Some(RunText::Directories),
        "snapshots" => Some(RunText::Snapshots),
        _ => None,
    }
}

/// The form of one word.
fn form_of_one(word: &str) -> Option<Form>
    ensures value { result ≡ one_form word.now }
    ensures few { IfSome result ScriptIsShort }
{
    if word == "race" {
        return Some(Form::Race);
    }
    if word == "audit" {
        return Some(Form::Audit);
    }
    if word == "parts" {
        return Some(Form::Parts);
    }
    shown_of(word).map(Form::Play)
}

/// The form of words that don't begin with `node`.
fn other_form(words: &[&str]) -> Option<Form>
    ensures value { result ≡ other_form (map (λ word. word.now) words.now) }
    ensures few { IfSome result ScriptIsShort }
{
    if words.len() == 1 {
        return form_of_one(words[0]);
    }
    if words.len() == 5 {
        return numbers_of_five(words[0], words[1], words[2], words[3], words[4]).map(Form::Gen);
    }
    if words.len() == 6 {
        return form_of_six(words);
    }
    None
}

/// Whether words begin with `node`.
fn is_node(words: &[&str]) -> bool
    ensures { result ≡ is_node (map (λ word. word.now) words.now) }
{
    !words.is_empty() && words[0] == "node"
}

/// The form of the words after the program's name: one of the words `play`, `messages`, `directory`, `snapshots`, `race`,
/// `audit` and `parts`, `gen` with the options `--seed N` and `--count N`, each once, in either order, and with `--script`
/// or without it, or `node` with its options. None where they have no form.
#[tactic(auto, unfolding(crate::specs::Forms::form_of))]
pub fn form_of(words: &[&str]) -> Option<Form>
    ensures value { result ≡ form_of (map (λ word. word.now) words.now) }
    ensures few { IfSome result ScriptIsShort }
{
    if is_node(words) {
        return node_of(&words[1..]).map(Form::Node);
    }
    other_form(words)
}
