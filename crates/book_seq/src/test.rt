ghost use Rattle.std.specs.Prelude.{◌≡◌, Bool};

/// A test of the entries of a list, by which its first entries are found that pass.
pub trait Test<E> {
    ghost is_passed: { Self → E → Bool };

    /// Whether the entry passes.
    fn passes(&self, entry: &E) -> bool
        ensures { result ≡ is_passed self.now entry.now };
}
