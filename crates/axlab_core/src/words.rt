//! The words of the command line.
ghost use Rattle.std.specs.Prelude.{◌≡◌};
ghost use Rattle.axlab_core.specs.Commands.{is_unbuilt, is_unbuilt_pair, is_option, has_option};
ghost use Rattle.axlab_core.specs.WordList.{word_list};

use lab_file::Command;
use texts::small;

/// What the words ask for.
#[derive(Clone, Copy, Debug, PartialEq, Eq)]
pub enum Form {
    /// A command with a lab.
    Lab(Command),
    /// A drill of a number.
    Drill(u64),
    /// A listed form whose command isn't built yet.
    Unbuilt,
    /// No listed form.
    Faulty,
}

impl Form {
    ghost use Rattle.axlab_core.specs.Words.{form_of, listed_form, pair_form, drill_form, command_form};

    /// The form of these words.
    pub(crate) fn of(words: &Vec<String>) -> Form
        ensures { result ≡ form_of (word_list words.now) }
    {
        if has_option(words) {
            Form::Faulty
        } else {
            Form::listed(words)
        }
    }

    // A command with a lab, or with a lab and a second file.
    fn listed(words: &Vec<String>) -> Form
        ensures { result ≡ listed_form (word_list words.now) }
    {
        match words.as_slice() {
            [word, second] => Form::of_pair(word.as_str(), second.as_str()),
            [word, _, _] => {
                if is_unbuilt_pair(word.as_str()) {
                    Form::Unbuilt
                } else {
                    Form::Faulty
                }
            }
            _ => Form::Faulty,
        }
    }

    // A word and one behind it.
    fn of_pair(word: &str, second: &str) -> Form
        ensures { result ≡ pair_form word.now second.now }
    {
        if word == "drill" {
            Form::of_drill(small(second.as_bytes()))
        } else {
            Form::of_command(word)
        }
    }

    // A drill, where the word behind it is a number.
    fn of_drill(number: Option<u64>) -> Form
        ensures { result ≡ drill_form number }
    {
        match number {
            Some(number) => Form::Drill(number),
            None => Form::Faulty,
        }
    }

    // A command with a lab, by its word.
    fn of_command(word: &str) -> Form
        ensures { result ≡ command_form word.now }
    {
        if word == "match" {
            Form::Lab(Command::Match)
        } else if word == "tournament" {
            Form::Lab(Command::Tournament)
        } else if is_unbuilt(word) {
            Form::Unbuilt
        } else {
            Form::Faulty
        }
    }
}

// Whether some word begins with `-`.
fn has_option(words: &Vec<String>) -> bool
    ensures { result ≡ has_option (word_list words.now) }
{
    for word in words {
        if is_option(word.as_str()) {
            return true;
        }
    }
    false
}

fn is_option(word: &str) -> bool
    ensures { result ≡ is_option word.now }
{
    match word.as_bytes() {
        [first, ..] => *first == b'-',
        [] => false,
    }
}

fn is_unbuilt(word: &str) -> bool
    ensures { result ≡ is_unbuilt word.now }
{
    word == "rota"
        || word == "board"
        || word == "moran"
        || word == "best"
        || word == "mean"
        || word == "certificate"
        || word == "summary"
}

fn is_unbuilt_pair(word: &str) -> bool
    ensures { result ≡ is_unbuilt_pair word.now }
{
    word == "resume" || word == "check"
}
