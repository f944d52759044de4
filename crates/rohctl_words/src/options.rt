//! Options and arguments of the command line, before they are given to a command.

use clap::{Arg, ArgAction, Command};
use std::alloc::{AllocError, Global};

/// How a word is given.
#[derive(Clone, Copy, PartialEq, Eq)]
enum Form {
    /// An option without a value.
    Flag,
    /// An option with a value, which help texts call so.
    Valued(&'static str),
    /// An option whose value may be left out, and is then this one.
    OrAlone {
        value: &'static str,
        otherwise: &'static str,
    },
    /// An argument by its place.
    Argument,
    /// One or more arguments by their place.
    Arguments,
}

/// Whether a word has to be given.
#[derive(Clone, Copy, PartialEq, Eq)]
enum Need {
    /// It may be left out.
    Optional,
    /// It may be left out, and then has this value.
    Otherwise(&'static str),
    /// It has to be given.
    Required,
    /// It has to be given unless this option is.
    Unless(&'static str),
}

/// Which other words go with a word.
#[derive(Clone, Copy, PartialEq, Eq)]
enum Company {
    /// Any.
    Any,
    /// All but this one.
    Without(&'static str),
    /// This one has to be given too.
    With(&'static str),
}

/// An option or an argument.
#[derive(Clone, Copy)]
pub(crate) struct Word {
    name: &'static str,
    form: Form,
    help: &'static str,
    letter: Option<char>,
    need: Need,
    company: Company,
}

/// A word that may be left out, and goes with any other.
fn bare(name: &'static str, form: Form, help: &'static str) -> Word {
    Word {
        name,
        form,
        help,
        letter: None,
        need: Need::Optional,
        company: Company::Any,
    }
}

/// An option with a value.
pub(crate) fn valued(name: &'static str, value: &'static str, help: &'static str) -> Word {
    bare(name, Form::Valued(value), help)
}

/// An option without a value.
pub(crate) fn flag(name: &'static str, help: &'static str) -> Word {
    bare(name, Form::Flag, help)
}

/// An argument.
pub(crate) fn argument(name: &'static str, help: &'static str) -> Word {
    bare(name, Form::Argument, help)
}

/// One or more arguments.
pub(crate) fn arguments(name: &'static str, help: &'static str) -> Word {
    bare(name, Form::Arguments, help)
}

impl Word {
    /// With a letter for short.
    pub(crate) fn or_letter(self, letter: char) -> Word {
        Word {
            letter: Some(letter),
            ..self
        }
    }

    /// Its value may be left out, and is then this one.
    pub(crate) fn or_alone(self, otherwise: &'static str) -> Word {
        match self.form {
            Form::Valued(value) => Word {
                form: Form::OrAlone { value, otherwise },
                ..self
            },
            _ => self,
        }
    }

    /// It has to be given.
    pub(crate) fn required(self) -> Word {
        Word {
            need: Need::Required,
            ..self
        }
    }

    /// It has to be given unless this option is.
    pub(crate) fn required_unless(self, name: &'static str) -> Word {
        Word {
            need: Need::Unless(name),
            ..self
        }
    }

    /// It has this value if it isn't given.
    pub(crate) fn otherwise(self, value: &'static str) -> Word {
        Word {
            need: Need::Otherwise(value),
            ..self
        }
    }

    /// It can't be given with this one.
    pub(crate) fn without(self, name: &'static str) -> Word {
        Word {
            company: Company::Without(name),
            ..self
        }
    }

    /// It can't be given without this one.
    pub(crate) fn with(self, name: &'static str) -> Word {
        Word {
            company: Company::With(name),
            ..self
        }
    }

    /// The word by its form.
    fn formed<'a>(&self, alloc: Global) -> Arg<'a> {
        let arg = Arg::new(alloc, self.name).help(self.help);
        match self.form {
            Form::Flag => arg.long(self.name).action(ArgAction::SetTrue),
            Form::Valued(value) => arg.long(self.name).value_name(value).action(ArgAction::Set),
            Form::OrAlone { value, otherwise } => arg
                .long(self.name)
                .value_name(value)
                .num_args(0..=1)
                .default_missing_value(otherwise)
                .action(ArgAction::Set),
            Form::Argument => arg,
            Form::Arguments => arg.num_args(1..),
        }
    }

    /// The word with its letter.
    fn lettered<'a>(&self, alloc: Global) -> Arg<'a> {
        let arg = self.formed(alloc);
        match self.letter {
            Some(letter) => arg.short(letter),
            None => arg,
        }
    }

    /// The word with its need.
    fn needed<'a>(&self, alloc: Global) -> Result<Arg<'a>, AllocError> {
        let arg = self.lettered(alloc);
        match self.need {
            Need::Optional => Ok(arg),
            Need::Otherwise(value) => Ok(arg.default_value(value)),
            Need::Required => Ok(arg.required(true)),
            Need::Unless(name) => arg.required_unless_present(name),
        }
    }

    /// The word as the parser takes it.
    fn arg<'a>(&self, alloc: Global) -> Result<Arg<'a>, AllocError> {
        let arg = self.needed(alloc)?;
        match self.company {
            Company::Any => Ok(arg),
            Company::Without(name) => arg.conflicts_with(name),
            Company::With(name) => arg.requires_arg(name),
        }
    }
}

/// The words that were given, and the memory for what is built of them.
#[derive(Clone, Copy)]
pub(crate) struct Given<'w> {
    pub(crate) alloc: Global,
    pub(crate) words: &'w [String],
}

impl Given<'_> {
    /// Whether one of the words is this name.
    fn names(&self, name: &str) -> bool {
        self.words.iter().any(|word| word.as_str() == name)
    }
}

/// A subcommand with these words more. One that isn't named is never asked for them, and stays without.
pub(crate) fn with_words<'a>(
    given: Given<'_>,
    command: Command<'a>,
    words: &[Word],
) -> Result<Command<'a>, AllocError> {
    let mut command = command;
    if !given.names(command.get_name()) {
        return Ok(command);
    }
    for word in words {
        command = command.arg(word.arg(given.alloc)?)?;
    }
    Ok(command)
}

/// The place of an option behind those of a subcommand, in its help.
const BEHIND_OTHERS: usize = 99;

/// The option that says whether colours are wanted, before a subcommand or after it.
pub(crate) fn color<'a>(alloc: Global) -> Result<Arg<'a>, AllocError> {
    let word = valued("color", "WHEN", "Use colors: auto, always or never").otherwise("auto");
    Ok(word.arg(alloc)?.global(true).display_order(BEHIND_OTHERS))
}

/// A subcommand with these words, if it is named.
pub(crate) fn subcommand<'a>(
    given: Given<'_>,
    name: &'static str,
    about: &'static str,
    words: &[Word],
) -> Result<Command<'a>, AllocError> {
    with_words(given, Command::new(given.alloc, name).about(about), words)
}
