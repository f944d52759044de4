//! Which gateway is asked: the one at a control socket, the one with a name, or the one that the environment names.

use crate::words_in::wrong_value;
use clap::ArgMatches;
use rohctl_ground::{Ending, Misuse};
use std::env;
use std::env::VarError;
use std::rt::Env;

/// The variable that names a control socket.
const CONTROL: &str = "ROHC_CONTROL";

/// A gateway, as the command line names it.
#[derive(Clone, Copy, PartialEq, Eq)]
pub(crate) enum Gateway<'a> {
    /// By its control socket.
    Socket(&'a str),
    /// By its name.
    Named(&'a str),
    /// By the environment.
    Unnamed,
}

/// Whether a gateway can have this name: it is one part of a path.
fn is_name(name: &str) -> bool {
    !matches!(name, "" | "." | "..") && !name.contains("/")
}

/// The gateway that is named. `--control` wins over `--name`.
pub(crate) fn gateway_of<'a>(options: &ArgMatches<'a>) -> Result<Gateway<'a>, Ending<'a>> {
    if let Some(socket) = options.get_str("control") {
        return Ok(Gateway::Socket(socket));
    }
    match options.get_str("name") {
        None => Ok(Gateway::Unnamed),
        Some(name) if is_name(name) => Ok(Gateway::Named(name)),
        Some(name) => Err(wrong_value("--name", name, "the name of a gateway, without /")),
    }
}

/// The ending if nothing names a gateway.
fn unnamed<'a>() -> Ending<'a> {
    Ending::Misuse(Misuse::Missing {
        word: "--control",
        expected: "the control socket of the gateway, or --name NAME, or the variable ROHC_CONTROL",
    })
}

/// The control socket that the environment names. An empty one is none.
fn socket_in<'a, R: Env + AllocGlobal>(rt: &R) -> Result<String, Ending<'a>> {
    match env::var(rt, CONTROL) {
        Ok(socket) if !socket.is_empty() => Ok(socket),
        Ok(_) | Err(VarError::NotPresent) => Err(unnamed()),
        Err(VarError::NotUnicode) => Err(wrong_value(CONTROL, "(not UTF-8)", "a path in UTF-8")),
        Err(VarError::OutOfMemory) => Err(Ending::Memory),
    }
}

/// The control socket of a gateway.
pub(crate) fn socket_of<'a, R: Env + AllocGlobal>(
    rt: &R,
    gateway: Gateway<'a>,
) -> Result<String, Ending<'a>> {
    let alloc = rt.alloc();
    let made = match gateway {
        Gateway::Socket(socket) => format!(in alloc; "{socket}"),
        Gateway::Named(name) => format!(in alloc; "/run/rohc-gateway/{name}/control"),
        Gateway::Unnamed => return socket_in(rt),
    };
    made.map_err(|_| Ending::Memory)
}
