//! The program `langtag`.
#![tactic(auto)]

mod registry;
mod words;

use crate::registry::registry_path;
use crate::words::command_given;
use lt_jar::Device;
use lt_terminal::{People, Progress, run_for_people};
use lt_tool::Streams;
use std::cell::Cell;
use std::fs;
use std::io::{self, ErrorKind, IsTerminal};
use std::process::ExitCode;

/// Runs the program by its words, with the streams and files of the host, `rt`, and ends with its status, 0 to 4.
fn main(rt: HostRuntime) -> ExitCode {
    let mut opener = |name: &str| fs::open(&rt, name);
    // What is no file on a disk is not opened again: a pipe has given its bytes, and to open one may wait for a writer.
    let again = |name: &str| {
        if fs::metadata(&rt, name)?.is_file() {
            fs::open(&rt, name)
        } else {
            Err(io::Error::from(ErrorKind::Unsupported))
        }
    };
    let at_terminal = rt.stderr().is_terminal();
    // Where the output is a terminal itself, its lines tell how far the run is.
    let is_told = at_terminal && !rt.stdout().is_terminal();
    let is_unread = Cell::new(false);
    let progress = Progress::new(rt.alloc(), rt.stdout(), rt.stderr(), is_told, &is_unread);
    let mut streams = Streams {
        input: Device::new(rt.stdin()),
        output: Device::new(progress),
        errors: Device::new(rt.stderr()),
    };
    let mut people = People {
        device: Device::new(rt.stderr()),
        at_terminal,
        again,
        is_unread: &is_unread,
    };
    let registry = registry_path(&rt);
    let status = run_for_people(
        rt.alloc(),
        command_given(&rt),
        &mut opener,
        registry.as_str(),
        &mut streams,
        &mut people,
    );
    ExitCode::from(status)
}
