// Why a call stopped, as whoever made it tells: a refusal, or its number alone.
ghost use Rattle.std.specs.Prelude.{◌≡◌, ℕ};
ghost use Rattle.refusal.specs.Number.{number};

use refusal::Refusal;

pub trait Reason: Copy {
    ghost told: { Self → ℕ };

    fn number(self) -> u8
        ensures { result ≡ told self };
}

impl Reason for Refusal {
    ghost told = { number };

    fn number(self) -> u8 {
        Refusal::number(self)
    }
}

impl Reason for u8 {
    ghost told = { λ n. n };

    fn number(self) -> u8 {
        self
    }
}
