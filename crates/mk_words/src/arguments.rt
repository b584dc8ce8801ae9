//! What the subcommands take, as rows of tables, and how clap is told.

use clap::{Arg, ArgAction, Command};
use std::alloc::{AllocError, Global};

/// An argument of a subcommand: an option if it has a name, and else a word at a place.
pub struct Argument {
    /// What clap knows it by.
    pub id: &'static str,
    /// Its name after one hyphen.
    pub short: Option<char>,
    /// Its name after two hyphens.
    pub long: Option<&'static str>,
    /// What help calls its value, if not by the id.
    pub value_name: Option<&'static str>,
    /// What help says about it.
    pub help: &'static str,
    /// What a use of it does.
    pub action: ArgAction,
    /// Whether its value may begin with a hyphen.
    pub takes_hyphens: bool,
    /// Whether its value may be left out. A value then comes after an equals sign.
    pub is_value_optional: bool,
    /// Whether it has to be there.
    pub is_required: bool,
    /// Those that can't stand beside it.
    pub conflicts: &'static [&'static str],
    /// Those of which one has to be there if it isn't, if there are any.
    pub replaced_by: &'static [&'static str],
}

/// An option without a value.
pub const FLAG: Argument = Argument {
    id: "",
    short: None,
    long: None,
    value_name: None,
    help: "",
    action: ArgAction::SetTrue,
    takes_hyphens: false,
    is_value_optional: false,
    is_required: false,
    conflicts: &[],
    replaced_by: &[],
};

/// An option with a value, which may begin with a hyphen.
pub const OPTION: Argument = Argument {
    action: ArgAction::Set,
    takes_hyphens: true,
    ..FLAG
};

/// An option that may be given again, with a value each time.
pub const OPTION_AGAIN: Argument = Argument {
    action: ArgAction::Append,
    ..OPTION
};

/// A subcommand.
pub struct Subcommand {
    pub name: &'static str,
    /// What help says about it.
    pub about: &'static str,
    /// What its help says after the arguments.
    pub after_help: &'static str,
    /// Its arguments, in the order of help.
    pub arguments: &'static [Argument],
}

impl Argument {
    // As clap has it.
    fn arg<'a>(&self, alloc: Global) -> Result<Arg<'a>, AllocError> {
        let arg = Arg::new(alloc, self.id)
            .help(self.help)
            .action(self.action)
            .allow_hyphen_values(self.takes_hyphens)
            .required(self.is_required);
        self.named(arg)
            .conflicts_with_all(self.conflicts)?
            .required_unless_present_any(self.replaced_by)
    }

    // With the names of this one, and what help calls its value.
    fn named<'a>(&self, mut arg: Arg<'a>) -> Arg<'a> {
        if let Some(short) = self.short {
            arg = arg.short(short);
        }
        if let Some(long) = self.long {
            arg = arg.long(long);
        }
        if let Some(value_name) = self.value_name {
            arg = arg.value_name(value_name);
        }
        if self.is_value_optional {
            arg = arg.num_args(0..=1).require_equals(true);
        }
        arg
    }
}

impl Subcommand {
    /// As clap has it.
    pub fn command<'a>(&self, alloc: Global) -> Result<Command<'a>, AllocError> {
        let mut command = Command::new(alloc, self.name)
            .about(self.about)
            .after_help(self.after_help);
        for argument in self.arguments {
            command = command.arg(argument.arg(alloc)?)?;
        }
        Ok(command)
    }
}
