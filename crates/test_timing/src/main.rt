// The innermost loops of the prover, a given number of times, for `bench/kernels` to time. Without words it does nothing.
#![tactic(auto)]

mod eliminations;
mod kernels;

use eliminations::Whole;
use kernels::{Kernel, run};
use std::env;

fn main(rt: HostRuntime) {
    let Some((kernel, times)) = named(&rt) else {
        return;
    };
    match run(rt.alloc(), kernel, times) {
        Ok(written) => {
            let _ = println!(rt; "{written}");
        }
        Err(_) => {
            let _ = println!(rt; "refused");
        }
    }
}

/// The kernel that the words name, and how many times it is to run.
fn named(rt: &HostRuntime) -> Option<(Kernel, u32)> {
    let words: Vec<String> = env::args(rt).ok()?.skip(1).collect(rt.alloc()).ok()?;
    let [name, size, times] = words.as_slice() else {
        return None;
    };
    let size = size.as_str().parse::<u16>().ok()?;
    let times = times.as_str().parse::<u32>().ok()?;
    let kernel = match name.as_str() {
        "combine" => Kernel::Combine(size),
        "and" => Kernel::And(size),
        "tidy" => Kernel::Tidy(size),
        "shadow" => Kernel::Shadow(size),
        "join" => Kernel::Join(size),
        "gap" => Kernel::Eliminate(Whole::Gap, size),
        "nested" => Kernel::Eliminate(Whole::Nested, size),
        "chain" => Kernel::Eliminate(Whole::Chain, size),
        _ => return None,
    };
    Some((kernel, times))
}
