// A chart, what a reading is measured by: its centre and sigma (document 01's step d).
#[derive(Clone, Copy)]
pub struct Chart {
    pub centre: i32,
    pub sigma: u32,
}

impl Chart {
    // The bounds of sigma.
    pub const MIN_SIGMA: u32 = 1;

    pub const MAX_SIGMA: u32 = 65535;
}
