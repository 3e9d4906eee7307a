ghost use Rattle.std.specs.Prelude.{◌≡◌};
ghost use Rattle.book_seq.specs.Sums.{listed};
ghost use Rattle.book_seq.specs.declared.sums.Sums.{Sums};

/// What is kept in a list that adds up the weights of its entries: each entry has three.
pub trait Weigh {
    ghost weights: { Self → Sums };

    /// The three weights of the entry.
    fn weight(&self) -> [i64; 3]
        ensures { result ≡ listed (weights self.now) };
}
