// Times the comparison of two nodes of a table of 4,096 nodes, each the join of the two before it, and prints the mean
// on standard error. A program for figures, and no test: it writes nothing on standard output.
#![tactic(auto)]

use kinds::names::Names;
use std::io;
use std::time::Instant;
use tables::{MOST_NODES, Sides};
use terms::nodes::Node;

const RUNS: u64 = 1000;

fn main(rt: HostRuntime) -> io::Result<()> {
    let mut shared = [Node::of_constant(Names::one(0)); MOST_NODES];
    shared[0] = Node::of_variable(0);
    // by numbers, since it is numbers that are written; `compare` makes the same table, and a library would be longer
    for i in 2..4096u16 {
        shared[i as usize] = Node::of_join(i - 1, i - 2);
    }
    let mut work = [0; MOST_NODES];
    let mut equal = 0u64;
    let start = Instant::now(&rt)?;
    for run in 0..RUNS {
        // another left side in each run, so that no run can be left out
        let sides = Sides::new(&shared, 4095 - run as usize, 0);
        if let Ok(true) = sides.equivalent(1, &mut work) {
            equal = equal.wrapping_add(1);
        }
    }
    let nanos = start.elapsed(&rt)?.as_nanos();
    let mean = nanos / RUNS as u128;
    eprintln!(rt;
        "4,096 nodes compared in {mean} ns, the mean of {RUNS} runs, {equal} of them equal"
    )
}
