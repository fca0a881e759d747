ghost use Rattle.std.specs.Prelude.{◌≡◌, ◌≢◌, ◌≤◌, map, option_map, None, Some, IfOk, IfErr};
ghost use Rattle.am_base.specs.Most.{most_events_of_run};
ghost use Rattle.clap.specs.Words.{kind_of};
ghost use Rattle.am_cli_words.specs.declared.form.Form.TheVariants as form;
ghost use Rattle.am_cli_words.specs.Forms.{form_of, gen_of, texts_of, IsGen};

use crate::form::{SeedAndCount, numbers_of};
use clap::error::ErrorKind;
use clap::{Arg, ArgAction, Command, Error};
use std::alloc::{AllocError, Global};

/// The texts of the two options of `gen`. The parse fails only for want of memory.
fn texts<'a>(
    alloc: Global,
    words: &'a [&'a str],
) -> Result<(Option<&'a str>, Option<&'a str>), Error>
    requires { gen_of (map (λ word. word.now) words.now) ≢ None }
    ensures seed { IfOk result (λ r. option_map (λ s. s.now) r.0
        ≡ option_map (λ t. t.0) (texts_of (map (λ word. word.now) words.entry.now))) }
    ensures count { IfOk result (λ r. option_map (λ s. s.now) r.1
        ≡ option_map (λ t. t.1) (texts_of (map (λ word. word.now) words.entry.now))) }
    ensures err { IfErr result (λ e. kind_of e ≡ ErrorKind.OutOfMemory) }
{
    let seed = Arg::new(alloc, "seed")
        .long("seed")
        .required(true)
        .action(ArgAction::Set);
    let count = Arg::new(alloc, "count")
        .long("count")
        .required(true)
        .action(ArgAction::Set);
    let command = Command::new(alloc, "gen").arg(seed)?.arg(count)?;
    let matches = command.try_get_matches_from(words)?;
    Ok((matches.get_str("seed"), matches.get_str("count")))
}

/// The numbers of words that are `gen`. It fails only for want of memory.
#[tactic(auto, using(crate::proofs::Words::gen_of_words_is_some, crate::proofs::Words::form_of_gen_words))]
pub fn gen_numbers(alloc: Global, words: &[&str]) -> Result<SeedAndCount, AllocError>
    requires { IsGen (form_of (map (λ word. word.now) words.now)) }
    ensures numbers { IfOk result (λ numbers. form_of (map (λ word. word.now) words.now)
        ≡ Some (form.Gen numbers)) }
    ensures count { IfOk result (λ numbers. numbers.count ≤ most_events_of_run) }
{
    let Ok((seed, count)) = texts(alloc, words) else {
        return Err(AllocError);
    };
    if let (Some(seed), Some(count)) = (seed, count) {
        if let Some(numbers) = numbers_of(seed, count) {
            return Ok(numbers);
        }
    }
    unreachable!()
}
