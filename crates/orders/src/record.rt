//! What every record has: a number.
ghost use Rattle.std.specs.Prelude.{◌≡◌, ℕ};

/// A record that is known by a number.
pub trait Numbered {
    ghost num: { Self → ℕ };

    /// The record's number.
    fn number(&self) -> u16
        ensures { result ≡ num self.now };
}
