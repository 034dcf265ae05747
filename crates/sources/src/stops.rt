// Stretches of states with one group each: a row goes through them with no loop over groups.
ghost use Rattle.sources.specs.Stops.{StopOf, CanListStops, Stops};

// Where the stretch from state t stops, with the groups from `first` to before `end`: where that from the next state does, if t has one group.
fn stop_of(first: u16, end: u16, t: u16, after: u16) -> u16
    ensures { StopOf first end t after result }
{
    if usize::from(first) + 1 == usize::from(end) {
        return after;
    }
    t
}

// Where the stretch from each state stops, from the last state back.
pub(crate) fn list_stops(groups: &[u16], n: usize, stops: &mut [u16])
    requires { CanListStops groups.now n stops.old }
    ensures { Stops groups.now n 0 stops.new }
{
    stops[n] = n as u16;
    for t in (0..n).rev() {
        stops[t] = stop_of(groups[t], groups[t + 1], t as u16, stops[t + 1]);
    }
}
