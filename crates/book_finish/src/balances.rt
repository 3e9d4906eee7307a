ghost use Rattle.std.specs.Prelude.{◌≡◌};
ghost use Rattle.book_finish.specs.Kept.{AreWithinLimits, cleared_in, difference_in, opening_in};

use book_commodity::{Day, Steps};
use book_register::Register;

/// The sum of the register's reconciled rows, over all days.
pub(crate) fn opening_balance(register: &Register) -> i128
    ensures { result ≡ opening_in register.now.rows }
{
    let len = register.len();
    if len == 0 {
        return 0;
    }
    let mut steps = Steps::new();
    let last = register.row(len - 1, &mut steps);
    register.balances_at(last.day, &mut steps).reconciled
}

/// The sum of the register's cleared rows on or before the day.
fn cleared_balance(register: &Register, day: Day) -> i128
    requires { AreWithinLimits register.now.rows }
    ensures { result ≡ cleared_in day register.now.rows }
{
    let balances = register.balances_at(day, &mut Steps::new());
    balances.cleared - balances.reconciled
}

/// How much the closing balance is above the sum of the reconciled rows, which is known, and of the cleared ones on or
/// before the day.
pub(crate) fn difference_from(register: &Register, day: Day, closing: i64, opening: i128) -> i128
    requires limits { AreWithinLimits register.now.rows }
    requires opening { opening ≡ opening_in register.now.rows }
    ensures { result ≡ difference_in day closing register.now.rows }
{
    i128::from(closing) - opening - cleared_balance(register, day)
}
