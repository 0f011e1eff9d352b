// A tool for allocation logs: which blocks a log holds, a log compressed, two logs compared.
#![tactic(auto)]

mod args;
mod compare;
mod compress;
mod file;
mod held;
mod number;
mod reply;
mod sentence;

use args::Command;

fn main(rt: HostRuntime) {
    let err = rt.stderr();
    let Some(asked) = args::read_args(&rt) else {
        sentence::usage(&err);
        return;
    };
    match asked.command {
        Command::Held => held::print_held(&rt, &err, asked.numbers),
        Command::Compress => compress::write_compressed(&rt, &err, asked.numbers),
        Command::Compare => compare::print_comparison(&rt, &err, asked.numbers),
    }
}
