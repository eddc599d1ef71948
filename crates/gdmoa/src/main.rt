//! The program: hands its words to the agent, with the files and the standard output of the system, and ends with the
//! status.
#![tactic(auto)]

use agent_bytes::{RealFiles, StdoutSink};
use agent_run::refusal::OUT_OF_MEMORY;
use agent_run::{agent, command_words};
use std::process::ExitCode;
use std::thread;
use std::thread::Builder;

/// The stack on which the agent runs, in octets. The compiler, and the opening where it reads a name, call themselves
/// down what documents nest (docs/OPERATING.md, Limits); the system gives of the stack what is used.
const STACK: usize = 0x1000_0000;

/// The status with which the agent answers the words.
fn answer(rt: &HostRuntime) -> u8 {
    match command_words(rt) {
        Ok(words) => {
            let mut files = RealFiles::new(rt);
            let mut out = StdoutSink::new(rt);
            agent(rt, &words, &mut files, &mut out)
        }
        Err(_) => OUT_OF_MEMORY,
    }
}

fn main(rt: HostRuntime) -> ExitCode {
    let status = thread::scope(thread::scope_env(), &rt, |scope| {
        match Builder::new()
            .stack_size(STACK)
            .spawn_scoped(scope, || answer(&rt))
        {
            Ok(handle) => handle.join(&rt),
            Err(_) => answer(&rt),
        }
    });
    ExitCode::from(status)
}
