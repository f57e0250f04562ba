// Where the constants stand that names mean.
ghost use Rattle.std.specs.Prelude.{◌≡◌, ℕ, ℤ, List, Option};

/// What knows the constants that names stand for.
pub trait KnownConstants {
    ghost constants: { Self → List ℕ → Option ℤ };

    /// The constant that a name stands for, where it stands for one.
    fn constant(&self, name: &[u8]) -> Option<i128>
        ensures { result ≡ constants self.now name.now };
}
