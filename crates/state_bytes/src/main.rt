//! The program `state_bytes`: makes the state of a service, turns it into bytes and reads it back, so that the time and the
//! memory that this takes can be measured from outside.
#![tactic(auto)]

mod fault;
mod filling;
mod measuring;
mod size;

use fault::Fault;
use measuring::measured;
use size::size_of;
use std::env;
use std::io::ErrorKind;
use std::process::ExitCode;

/// The words after the program's name. A word that is no text is no number either.
fn words(rt: &HostRuntime) -> Result<Vec<String>, Fault> {
    let mut words = Vec::new(rt.alloc());
    match env::args(rt) {
        Ok(given) => {
            for word in given.skip(1) {
                words.push(word).map_err(|_refused| Fault::NoMemory)?;
            }
            Ok(words)
        }
        Err(error) if error.kind() == ErrorKind::InvalidData => Err(Fault::Usage),
        Err(_) => Err(Fault::NoMemory),
    }
}

/// Measures a state of the size that the words spell, and tells its bytes.
fn run(rt: &HostRuntime) -> Result<(), Fault> {
    let size = size_of(&words(rt)?)?;
    let bytes = measured(rt.alloc(), size)?;
    let keys = size.keys;
    match println!(rt; "{keys} keys, {bytes} bytes, read back") {
        Ok(()) => Ok(()),
        Err(_) => Err(Fault::Write),
    }
}

fn main(rt: HostRuntime) -> ExitCode {
    match run(&rt) {
        Ok(()) => ExitCode::SUCCESS,
        Err(fault) => {
            let text = fault.text();
            let _ = eprintln!(rt; "{text}");
            ExitCode::from(fault.status())
        }
    }
}
