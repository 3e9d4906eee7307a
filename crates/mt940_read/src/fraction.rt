ghost use Rattle.std.specs.Prelude.{◌≡◌};
ghost use Rattle.book_statement.specs.Currencies.{IsFraction};

use std::marker::Model;

/// How many smallest units make one unit of a currency: from 1 to 10^9.
#[derive(Clone, Copy)]
pub struct Fraction {
    number: u64,
}

impl Model for Fraction {
    ghost use Rattle.std.specs.Prelude.{ℕ};
    ghost use Rattle.book_statement.specs.Currencies.{IsFraction};

    ghost Value = { ℕ };

    ghost view = { λ f. f.number };

    ghost invariant = { λ f. IsFraction f.number };

    ghost inverse = { λ n. record { number = n } };
}

impl Fraction {
    /// The fraction of this number.
    pub fn of(number: u64) -> Fraction
        requires { IsFraction number }
        ensures { result ≡ number }
    {
        Fraction { number }
    }

    /// Its number.
    pub fn number(self) -> u64
        ensures value { result ≡ self }
        ensures range { IsFraction result }
    {
        self.number
    }
}
