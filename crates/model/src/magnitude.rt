ghost use Rattle.std.specs.Prelude.{◌≡◌, ℕ, unsigned_abs};

// A number with a size: how far it is from zero.
pub trait Magnitude: Copy {
    ghost size: { Self → ℕ };

    fn magnitude(self) -> u64
        ensures { result ≡ size self };
}

impl Magnitude for u32 {
    ghost size = { λ number. number };

    fn magnitude(self) -> u64 {
        u64::from(self)
    }
}

impl Magnitude for i32 {
    ghost size = { unsigned_abs };

    fn magnitude(self) -> u64 {
        u64::from(self.unsigned_abs())
    }
}

impl Magnitude for i64 {
    ghost size = { unsigned_abs };

    fn magnitude(self) -> u64 {
        self.unsigned_abs()
    }
}
