// Why something is turned down, as it is told: any number and any place.
ghost use Rattle.std.specs.Prelude.{◌≡◌, ℕ};
ghost use Rattle.rules.specs.Refusal.{number_of, place_of};

use crate::Refusal;

pub trait Reason: Copy {
    ghost number: { Self → ℕ };

    ghost place: { Self → ℕ };

    // The number and the place.
    fn told(self) -> (u32, u32)
        ensures { result ≡ (number self, place self) };
}

impl Reason for Refusal {
    ghost number = { number_of };

    ghost place = { place_of };

    fn told(self) -> (u32, u32) {
        (self.number(), self.place())
    }
}

// The two themselves, whichever they are.
impl Reason for (u32, u32) {
    ghost number = { λ told. told.0 };

    ghost place = { λ told. told.1 };

    fn told(self) -> (u32, u32) {
        (self.0, self.1)
    }
}
