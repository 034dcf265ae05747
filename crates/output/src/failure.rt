// What a program could not do, and why: it ends the program, which prints it on standard error.
use std::{fmt, io};

#[derive(Drop)]
pub enum Failure {
    Input(io::Error),
    Output(io::Error),
}

// What a `main` that returns an error prints of it.
impl fmt::Debug for Failure {
    fn fmt<W: fmt::Write>(&self, f: &mut fmt::Formatter<W>) -> fmt::Result {
        match self {
            Failure::Input(error) => write!(f, "standard input: {error}"),
            Failure::Output(error) => write!(f, "standard output: {error}"),
        }
    }
}
