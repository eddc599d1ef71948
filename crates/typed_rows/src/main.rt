//! Decodes and writes the values of rows: each line of standard input names a syntax and has the octets of a tree, and
//! the one form of its value is printed, or that the tree denotes none. Lines that are empty or begin with `#` are
//! printed as they are.
#![tactic(auto)]

mod answering;
mod row_syntaxes;

use answering::answer_line;
use std::io;

fn main(rt: HostRuntime) -> io::Result<()> {
    for line in rt.lines(rt.alloc()) {
        let answer = answer_line(rt.alloc(), line?.as_str())?;
        println!(rt; "{}", answer.as_str())?;
    }
    Ok(())
}
