//! Tries every program of four blocks, each of one word, whose flow graph has at most five edges: each word is plain, a branch or a
//! jump to a block or out of the code, an indirect jump or a stop. Of each it tries all sets of edges, and all tables of weights
//! with the weights 1 and 2, against a plain program that goes through all sets of edges.
//!
//! It prints how many programs and how many tables of weights it tried, and how many of them came to something wrong.
#![tactic(auto)]

mod plain;
mod program;
mod tally;
mod trying;

use program::{PROGRAMS, executable, put_program};
use std::{env, fs, io};
use tally::Tally;
use trying::try_program;

fn main(rt: HostRuntime) -> io::Result<()> {
    let mut tally = Tally::new();
    for path in env::args(&rt)?.skip(1) {
        let text = fs::read_to_string(&rt, path.as_str())?;
        let mut file = executable(rt.alloc(), &text)?;
        for number in 0..PROGRAMS {
            put_program(&mut file, number)?;
            try_program(rt.alloc(), &file, &mut tally)?;
        }
    }
    let Tally {
        programs,
        tables,
        wrong,
    } = tally;
    println!(rt; "{programs} programs, {tables} tables of weights, {wrong} wrong")
}
