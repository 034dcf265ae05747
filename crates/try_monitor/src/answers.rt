// Printing answers.
use monitor::{Monitor, Step};
use rules::Reason;
use std::io;

pub fn zoned<R: Reason>(out: &impl Print, answer: Result<u32, R>) -> io::Result<()> {
    match answer {
        Ok(zone) => println!(out; " zone {zone}"),
        Err(r) => show::refusal(out, r),
    }
}

pub fn checked<R: Reason>(out: &impl Print, answer: Result<(), R>) -> io::Result<()> {
    match answer {
        Ok(()) => println!(out; " accepted"),
        Err(r) => show::refusal(out, r),
    }
}

// Prints the answer, and gives the monitor for the next point: the one given where the call was refused.
pub fn step<R: Reason>(
    out: &impl Print,
    given: Monitor,
    answer: Result<Step, R>,
) -> io::Result<Monitor> {
    match answer {
        Err(r) => {
            show::refusal(out, r)?;
            Ok(given)
        }
        Ok(Step::Quiet { count, next }) => {
            println!(out;
                " quiet {count} then state {} count {}",
                next.state, next.count
            )?;
            Ok(next)
        }
        Ok(Step::Signal { count, mask, next }) => {
            println!(out;
                " signal {count} mask {mask} then state {} count {}",
                next.state, next.count
            )?;
            Ok(next)
        }
    }
}
