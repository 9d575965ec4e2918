//! The words of the command line, read by their position.

ghost use Rattle.std.specs.Prelude.{◌≡◌, ◌∷◌, option_map};
ghost use Rattle.rx_rem_command.specs.Numbers.{integers_of};
ghost use Rattle.rx_rem_command.specs.Forms.{command_of, alone_of, compact_of, extract_of, extracts_of, preference_of, run_of, runs_of, generate_of, generates_of};
ghost use Rattle.rx_rem_command.specs.Asked.{asked, preferred, requested};

use crate::numbers::{are_integers, count, number};
use rx_core::Text;
use rx_engine::Selection;

/// Which of the modes that the uses of a variable allow is taken: the first or the last, so a copy or a reference.
#[derive(Clone, Copy)]
pub enum Preference {
    Copy,
    Reference,
}

/// What the words ask for of a text.
#[derive(Clone, Copy)]
pub enum Command<'w> {
    /// The run that a range of bytes selects becomes a function of this name.
    Extract {
        name: &'w str,
        selection: Selection,
        preference: Preference,
    },
    /// Whether the text is accepted.
    Check,
    /// The certificate of the text.
    Certify,
    /// Whether the text is a certificate that is good for its text.
    Verify,
    /// The text with a short signature of its function of this name.
    Compact {
        name: &'w str,
    },
    /// What its program does in so many turns, where these integers are its input.
    Run {
        turns: u64,
        numbers: &'w [Text],
    },
}

/// What the words ask for: something of the text that is read, or the extraction from a text of so many functions, which is made.
#[derive(Clone, Copy)]
pub enum Request<'w> {
    OfText(Command<'w>),
    Generate { count: u64 },
}

/// A command behind whose verb no word stands.
fn alone<'w>(command: Command<'w>, words: &'w [Text]) -> Option<Command<'w>>
    ensures { option_map asked result ≡ alone_of (asked command.entry) words.entry.now }
{
    if words.is_empty() {
        Some(command)
    } else {
        None
    }
}

fn read_preference(word: &str) -> Option<Preference>
    ensures { option_map preferred result ≡ preference_of word.now }
{
    if word == "copy" {
        Some(Preference::Copy)
    } else if word == "ref" {
        Some(Preference::Reference)
    } else {
        None
    }
}

/// An extraction, where both numbers and the preference are told.
fn extract_with<'w>(
    name: &'w str,
    start: Option<u64>,
    end: Option<u64>,
    preference: Option<Preference>,
) -> Option<Command<'w>>
    ensures { option_map asked result ≡ extracts_of name.entry.now start end (option_map preferred preference) }
{
    match (start, end, preference) {
        (Some(start), Some(end), Some(preference)) => Some(Command::Extract {
            name,
            selection: Selection { start, end },
            preference,
        }),
        _ => None,
    }
}

fn extract_words<'w>(words: &'w [Text]) -> Option<Command<'w>>
    ensures { option_map asked result ≡ extract_of words.entry.now }
{
    match words {
        [name, start, end] => extract_with(
            name.as_str(),
            number(start.as_str().as_bytes()),
            number(end.as_str().as_bytes()),
            Some(Preference::Copy),
        ),
        [name, start, end, word] => extract_with(
            name.as_str(),
            number(start.as_str().as_bytes()),
            number(end.as_str().as_bytes()),
            read_preference(word.as_str()),
        ),
        _ => None,
    }
}

fn compact_words<'w>(words: &'w [Text]) -> Option<Command<'w>>
    ensures { option_map asked result ≡ compact_of words.entry.now }
{
    match words {
        [name] => Some(Command::Compact {
            name: name.as_str(),
        }),
        _ => None,
    }
}

/// A run of so many turns, where all words behind them are integers.
fn run_with<'w>(turns: Option<u64>, numbers: &'w [Text]) -> Option<Command<'w>>
    ensures { option_map asked result ≡ runs_of turns (integers_of numbers.entry.now) }
{
    match turns {
        Some(turns) if are_integers(numbers) => Some(Command::Run { turns, numbers }),
        _ => None,
    }
}

fn run_words<'w>(words: &'w [Text]) -> Option<Command<'w>>
    ensures { option_map asked result ≡ run_of words.entry.now }
{
    let (turns, numbers) = words.split_first()?;
    run_with(number(turns.as_str().as_bytes()), numbers)
}

fn generate_with<'w>(count: Option<u64>) -> Option<Request<'w>>
    ensures { option_map requested result ≡ generates_of count }
{
    match count {
        Some(count) => Some(Request::Generate { count }),
        None => None,
    }
}

fn generate_words<'w>(words: &'w [Text]) -> Option<Request<'w>>
    ensures { option_map requested result ≡ generate_of words.entry.now }
{
    match words {
        [word] => generate_with(count(word.as_str().as_bytes())),
        _ => None,
    }
}

/// What is asked for of the text that is read.
fn of_text<'w>(command: Option<Command<'w>>) -> Option<Request<'w>>
    ensures { option_map requested result ≡ option_map asked command.entry }
{
    match command {
        Some(command) => Some(Request::OfText(command)),
        None => None,
    }
}

/// What a verb asks for, with the words behind it.
fn verb_words<'w>(verb: &str, words: &'w [Text]) -> Option<Request<'w>>
    ensures { option_map requested result ≡ command_of (verb.now ∷ words.entry.now) }
{
    if verb == "check" {
        of_text(alone(Command::Check, words))
    } else if verb == "extract" {
        of_text(extract_words(words))
    } else if verb == "run" {
        of_text(run_words(words))
    } else if verb == "gen" {
        generate_words(words)
    } else if verb == "certify" {
        of_text(alone(Command::Certify, words))
    } else if verb == "verify" {
        of_text(alone(Command::Verify, words))
    } else if verb == "compact" {
        of_text(compact_words(words))
    } else {
        None
    }
}

/// What the words after the program's name ask for, or `None` where they have no form.
pub fn read_words(words: &[Text]) -> Option<Request<'_>>
    ensures { option_map requested result ≡ command_of words.now }
{
    let (verb, words) = words.split_first()?;
    verb_words(verb.as_str(), words)
}
