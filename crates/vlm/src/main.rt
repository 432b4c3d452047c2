//! Runs scripts of lock requests, and prints the answers.
#![tactic(auto)]

mod arguments;
mod cluster;
mod monitor;
mod run;
mod told;
mod watch;

use std::process::ExitCode;
use std::{env, io};
use vlm_script::PlayFault;

fn main(rt: HostRuntime) -> ExitCode {
    let status = match words_of(&rt) {
        Ok(words) => run::run_words(
            &rt,
            words.as_slice(),
            &mut rt.stdin(),
            &mut rt.stdout(),
            &mut rt.stderr(),
        ),
        Err(_) => run::failed(&PlayFault::Memory, &mut rt.stderr()),
    };
    ExitCode::from(status)
}

// The words of the command line, the program's name first.
fn words_of(rt: &HostRuntime) -> io::Result<Vec<String>> {
    Ok(env::args(rt)?.collect(rt.alloc())?)
}
