ghost use Rattle.std.specs.Prelude.{◌≡◌, map};
ghost use Rattle.am_cli_words.specs.Nodes.{unless_given, put_option, options_from, founding_of, node_words_with, node_words_in};

use am_base::founding::Founding;
use am_base::name::Name;
use am_base::names::Names;
use am_text_reader::name::{name, names};
use am_text_reader::number::number_up_to as up_to;

/// The options of `node` that were read, each at most once.
#[derive(Clone, Copy)]
pub struct Options {
    pub name: Option<Name>,
    pub founders: Option<Names>,
    pub resilience: Option<u8>,
    pub window: Option<u16>,
    pub pb_up_to: Option<u16>,
}

/// What was read of an option that wasn't there.
fn fresh<T: Copy>(there: Option<T>, read: T) -> Option<Option<T>>
    ensures { result ≡ unless_given there read }
{
    match there {
        Some(_) => None,
        None => Some(Some(read)),
    }
}

/// With one option more; None where there is no such option, it is there already, or its value is none.
fn put_option(options: Options, option: &str, value: &str) -> Option<Options>
    ensures { result ≡ put_option options option.now value.now }
{
    let mut new = options;
    let value = value.as_bytes();
    match option {
        "--name" => new.name = fresh(new.name, name(value).ok()?)?,
        "--founders" => new.founders = fresh(new.founders, names(value).ok()?)?,
        "--resilience" => new.resilience = fresh(new.resilience, up_to(value, 15).ok()? as u8)?,
        "--window" => new.window = fresh(new.window, up_to(value, 1008).ok()? as u16)?,
        "--pb-up-to" => new.pb_up_to = fresh(new.pb_up_to, up_to(value, 1024).ok()? as u16)?,
        _ => return None,
    }
    Some(new)
}

/// With what options in turn say, each a word with its value after it.
fn options_from(options: Options, words: &[&str]) -> Option<Options>
    ensures { result ≡ options_from options (map (λ word. word.now) words.now) }
{
    if words.is_empty() {
        return Some(options);
    }
    if words.len() == 1 {
        return None;
    }
    let more = put_option(options, words[0], words[1])?;
    options_from(more, &words[2..])
}

/// A node's name, and the founding of its group.
#[derive(Clone, Copy)]
pub struct NodeWords {
    pub name: Name,
    pub founding: Founding,
}

/// A founding, where the numbers are within their limits and the founders may be.
fn founding_of(founders: Names, resilience: u8, window: u16, pb_up_to: u16) -> Option<Founding>
    ensures { result ≡ founding_of founders resilience window pb_up_to }
{
    let _lives = founders.each_life();
    Founding::new(founders, resilience, window, pb_up_to)
}

/// A node's name and its founding, of its options: a name and founders are wanted.
fn node_with(options: Options) -> Option<NodeWords>
    ensures { result ≡ node_words_with options }
{
    let name = options.name?;
    let founders = options.founders?;
    let founding = founding_of(
        founders,
        options.resilience.unwrap_or(0),
        options.window.unwrap_or(64),
        options.pb_up_to.unwrap_or(256),
    )?;
    Some(NodeWords { name, founding })
}

#[tactic(auto, unfolding(crate::specs::Nodes::node_words_in))]
/// What the words after `node` ask for: `--name` and `--founders`, and maybe `--resilience`, `--window` and `--pb-up-to`, each at most
/// once, in any order. None where they are none of these, or a value is none.
pub(crate) fn node_of(words: &[&str]) -> Option<NodeWords>
    ensures { result ≡ node_words_in (map (λ word. word.now) words.now) }
{
    let none = Options {
        name: None,
        founders: None,
        resilience: None,
        window: None,
        pb_up_to: None,
    };
    let options = options_from(none, words)?;
    node_with(options)
}
