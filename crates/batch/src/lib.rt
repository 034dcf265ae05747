// A batch of readings on one chart: what the rule list alone decides is decided once.
#![tactic(auto)]

ghost use Rattle.std.specs.Prelude.{◌≡◌, Some};
ghost use Rattle.monitor.specs.Reading.{Readable, reading_check};
ghost use Rattle.batch.specs.Batch.{none_taken, readings_from, batch_of};

use monitor::{Chart, Monitor, Taken};
use rules::{MAX_NUMBER, Refusal, RuleList};

// How far the readings were taken. It stopped at a refusal where there is one: where `taken` is 0 the batch is refused, else reading `taken`
// met a full count and was not taken. It stopped at a signal where the last reading taken is one, and then `signal` has its mask. Else all were
// taken. Its refusal is a `rules::Refusal` where nothing else is said.
#[derive(Clone, Copy)]
pub struct Batch<R = Refusal> {
    pub taken: usize,
    pub refusal: Option<R>,
    pub count: u32,
    pub signal: Option<u32>,
    pub next: Monitor,
}

// The readings where nothing can be refused but for the count.
fn take_accepted(list: RuleList, monitor: Monitor, chart: Chart, readings: &[i32]) -> Batch
    requires { Readable list chart.sigma monitor }
    ensures { result ≡ readings_from list monitor chart.centre chart.sigma readings.now }
{
    let mut at = monitor;
    for (i, reading) in readings.iter().enumerate() {
        let points = at.count;
        if points >= MAX_NUMBER {
            return Batch {
                taken: i,
                refusal: Some(Refusal::Count),
                count: points,
                signal: None,
                next: at,
            };
        }
        match at.take(list, chart.zone_at(*reading)) {
            Taken::Quiet(next) => at = next,
            Taken::Signal(mask) => {
                return Batch {
                    taken: i + 1,
                    refusal: None,
                    count: points + 1,
                    signal: Some(mask),
                    next: Monitor::fresh(),
                };
            }
        }
    }
    Batch {
        taken: readings.len(),
        refusal: None,
        count: at.count,
        signal: None,
        next: at,
    }
}

// No reading taken, for this reason.
fn none_taken(refusal: Refusal, monitor: Monitor) -> Batch
    ensures { result ≡ none_taken (Some refusal) monitor }
{
    Batch {
        taken: 0,
        refusal: Some(refusal),
        count: monitor.count,
        signal: None,
        next: monitor,
    }
}

// What a first reading would be refused by: 2, 3, 4; 1; 5; 7, in this order.
fn check(list: RuleList, monitor: Monitor, chart: Chart) -> Result<(), Refusal>
    ensures { result ≡ reading_check list monitor chart.sigma }
{
    list.check()?;
    if !chart.sigma_fits() {
        return Err(Refusal::Sigma);
    }
    if !monitor.valid(list) {
        return Err(Refusal::State);
    }
    if monitor.count >= MAX_NUMBER {
        return Err(Refusal::Count);
    }
    Ok(())
}

// Readings taken one after another until one signals, one is refused, or none is left. All that is given is checked as for a first reading,
// also where there is none.
pub fn take_readings(list: RuleList, monitor: Monitor, chart: Chart, readings: &[i32]) -> Batch
    ensures { result ≡ batch_of list monitor chart.centre chart.sigma readings.now }
{
    match check(list, monitor, chart) {
        Err(refusal) => none_taken(refusal, monitor),
        Ok(()) => take_accepted(list, monitor, chart, readings),
    }
}
