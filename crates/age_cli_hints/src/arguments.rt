//! The files and keys that a command line gives, by the names of its options and operands.

use age_cli_args::{Decrypting, IdentityOptions, Request};
use age_host_model::ClobberOption;
use std::fmt::{self, Display, Formatter};

/// The values of the options that take a file or a key, and of the operands.
#[derive(Clone, Copy)]
pub(crate) struct Arguments<'w> {
    pub(crate) pass: Option<&'w str>,
    pub(crate) file_key: Option<&'w str>,
    pub(crate) shared: Option<&'w str>,
    pub(crate) random: Option<&'w str>,
    pub(crate) position: Option<&'w str>,
    pub(crate) old: Option<&'w str>,
    pub(crate) save: Option<&'w str>,
    pub(crate) script: Option<&'w str>,
    pub(crate) input: Option<&'w str>,
    pub(crate) output: Option<&'w str>,
}

/// The options and operands, in the order in which lines name them.
const ROLES: [&str; 10] = [
    "--pass",
    "--file-key",
    "--shared",
    "--random",
    "--position",
    "--old",
    "--save",
    "SCRIPT",
    "IN",
    "OUT",
];

impl<'w> Arguments<'w> {
    /// Returns the arguments of a command without any.
    fn none() -> Arguments<'w> {
        Arguments {
            pass: None,
            file_key: None,
            shared: None,
            random: None,
            position: None,
            old: None,
            save: None,
            script: None,
            input: None,
            output: None,
        }
    }

    /// Returns the arguments of a command.
    pub(crate) fn of(asked: &Request<'w>) -> Arguments<'w> {
        let none = Arguments::none();
        match *asked {
            Request::Encrypt(it) => Arguments {
                pass: Some(it.pass),
                random: it.random,
                input: Some(it.paths.from),
                output: Some(it.paths.to),
                ..none
            },
            Request::Decrypt(it) => Arguments::of_decryption(&it),
            Request::Resume(it) => Arguments {
                position: Some(it.position),
                old: Some(it.old),
                ..Arguments::of_decryption(&it.decrypting)
            },
            Request::Inspect(name) => Arguments {
                input: name,
                ..none
            },
            Request::Drill(it) => Arguments {
                pass: it.pass,
                script: Some(it.script),
                input: Some(it.from),
                ..none
            },
        }
    }

    /// Returns the arguments of a decryption.
    fn of_decryption(asked: &Decrypting<'w>) -> Arguments<'w> {
        Arguments {
            pass: asked.identity.pass,
            file_key: asked.identity.file_key,
            shared: asked.identity.shared,
            save: asked.save,
            input: Some(asked.paths.from),
            output: Some(asked.paths.to),
            ..Arguments::none()
        }
    }

    /// Returns the arguments in the order of [`ROLES`].
    fn in_order(&self) -> [Option<&'w str>; 10] {
        [
            self.pass,
            self.file_key,
            self.shared,
            self.random,
            self.position,
            self.old,
            self.save,
            self.script,
            self.input,
            self.output,
        ]
    }

    /// Returns whether one of the arguments is this name.
    pub(crate) fn have(&self, name: &str) -> bool {
        self.in_order().iter().any(|it| *it == Some(name))
    }

    /// Returns whether one of the arguments is an identity option.
    pub(crate) fn have_key(&self) -> bool {
        self.pass.is_some() || self.file_key.is_some() || self.shared.is_some()
    }
}

/// The options and operands with this name, displayed by their own names.
#[derive(Clone, Copy)]
pub(crate) struct ArgumentRoles<'w> {
    pub(crate) arguments: Arguments<'w>,
    pub(crate) name: &'w str,
}

impl<'w> Display for ArgumentRoles<'w> {
    fn fmt<W: fmt::Write>(&self, f: &mut Formatter<W>) -> fmt::Result {
        let mut is_shown = false;
        for (role, given) in ROLES.iter().zip(self.arguments.in_order().iter()) {
            if *given == Some(self.name) {
                f.write_str(if is_shown { " and " } else { "" })?;
                f.write_str(role)?;
                is_shown = true;
            }
        }
        Ok(())
    }
}

/// Returns whether an existing output is refused.
pub(crate) fn keeps_outputs(asked: &Request<'_>) -> bool {
    let clobber = match *asked {
        Request::Encrypt(it) => it.paths.clobber,
        Request::Decrypt(it) => it.paths.clobber,
        Request::Resume(it) => it.decrypting.paths.clobber,
        _ => return false,
    };
    clobber == ClobberOption::Refused
}

/// Returns whether the command line limits the work factor, and gives a key that has none.
pub(crate) fn has_idle_limit(asked: &Request<'_>) -> bool {
    match *asked {
        Request::Decrypt(it) => is_idle(&it.identity),
        Request::Resume(it) => is_idle(&it.decrypting.identity),
        _ => false,
    }
}

fn is_idle(identity: &IdentityOptions<'_>) -> bool {
    let has_other_key = identity.file_key.is_some() || identity.shared.is_some();
    identity.max_log < 22 && identity.pass.is_none() && has_other_key
}
