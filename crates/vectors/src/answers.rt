// What a run answers, printed.
use records::number;
use refusals::{number_of, place_of, status_number};
use rules::{Outcome, Ran};
use std::io;

fn print_outcome(rt: &impl Print, outcome: Outcome) -> io::Result<()> {
    match outcome {
        Ok(status) => print!(rt; "status {}", status_number(status)),
        Err(refusal) => print!(rt; "refused {} {}", number_of(refusal), place_of(refusal)),
    }
}

fn print_replies(rt: &impl Print, replies: &[u8]) -> io::Result<()> {
    for reply in replies {
        print!(rt; " {reply}")?;
    }
    Ok(())
}

// The actions logged, two bytes each.
fn print_log(rt: &impl Print, log: &[u8], actions: usize) -> io::Result<()> {
    for [low, high] in log.as_chunks::<2>().0.iter().take(actions) {
        print!(rt; " {}", number(*low, *high))?;
    }
    Ok(())
}

// What is run on which replies: status, steps taken, replies used, position and depth, and the actions logged.
pub fn print_ran(rt: &impl Print, replies: &[u8], ran: Ran, log: &[u8]) -> io::Result<()> {
    print!(rt; " on")?;
    print_replies(rt, replies)?;
    print!(rt; ": ")?;
    print_outcome(rt, ran.outcome)?;
    print!(rt;
        ", steps {}, replies {}, at {}, ",
        ran.steps, ran.replies, ran.state.at
    )?;
    print!(rt; "depth {}, actions {}:", ran.state.stack.depth, ran.actions)?;
    print_log(rt, log, ran.actions)?;
    println!(rt)
}
