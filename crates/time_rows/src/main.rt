//! Answers calls of `time_text`: each line of standard input names a call and has its argument, and what the call
//! answers is printed. Lines that are empty or begin with `#` are printed as they are.
#![tactic(auto)]

mod answering;

use answering::answer_line;
use std::io;

fn main(rt: HostRuntime) -> io::Result<()> {
    for line in rt.lines(rt.alloc()) {
        let answer = answer_line(rt.alloc(), line?.as_str())?;
        println!(rt; "{}", answer.as_str())?;
    }
    Ok(())
}
