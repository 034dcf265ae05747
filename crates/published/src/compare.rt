// A published figure beside ours, and the count of those that are met.
use crate::decimal::Decimal;
use std::{fmt, io};

#[derive(Clone, Copy)]
pub struct Tally {
    pub figures: u64,
    pub met: u64,
}

impl Tally {
    // A line for a figure of a chart; ours is in units of the last decimal place that is printed in the source, and 0 where it is no single number.
    pub fn figure(
        &mut self,
        out: &impl Print,
        chart: &impl fmt::Display,
        kind: &str,
        ours: Option<u64>,
        published: Decimal,
    ) -> io::Result<()> {
        let met = ours == Some(published.units);
        self.figures = self.figures.saturating_add(1);
        self.met = self.met.saturating_add(u64::from(met));
        let ours = Decimal {
            units: ours.unwrap_or(0),
            places: published.places,
        };
        print!(out; "{chart}: {kind} {ours} published {published} ")?;
        println!(out; "{}", if met { "met" } else { "not met" })
    }
}
