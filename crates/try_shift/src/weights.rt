// The weights of a shift, or its refusal.
use shift::shift_weights;
use std::io;

fn weights(out: &impl Print, shift: i32) -> io::Result<()> {
    print!(out; "shift {shift}")?;
    match shift_weights(shift) {
        Ok(w) => {
            print!(out; " {},{},{},{}", w.s, w.a1, w.b1, w.c1)?;
            println!(out; ",{},{},{},{}", w.c2, w.b2, w.a2, w.c0)
        }
        Err(r) => show::refusal(out, r),
    }
}

// Inside the bounds, and at their ends.
static SHIFTS: [i32; 12] = [
    0,
    1,
    -1,
    50,
    100,
    101,
    150,
    -150,
    151,
    -151,
    2147483647,
    -2147483648,
];

pub fn bounds(out: &impl Print) -> io::Result<()> {
    for shift in &SHIFTS {
        weights(out, *shift)?;
    }
    Ok(())
}
