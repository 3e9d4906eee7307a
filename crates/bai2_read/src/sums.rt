ghost use Rattle.std.specs.Prelude.{◌≡◌, ◌+◌, ◌^◌, ◌≤◌, ◌+ℤ◌, IfOk, OnErr};
ghost use mir.Syntax.{w128};
ghost use mir.Val.{SFits as FitsSigned};

use book_commodity::OutOfMemory;

/// The sum of two numbers; `OutOfMemory` where it is past the numbers of 128 bits.
pub fn plus(a: i128, b: i128) -> Result<i128, OutOfMemory>
    ensures sum { IfOk result (λ sum. sum ≡ a +ℤ b) }
    ensures past { OnErr result (FitsSigned w128 (a +ℤ b) → ⊥) }
{
    a.checked_add(b).ok_or(OutOfMemory)
}

/// The sum of two counts; `OutOfMemory` where it is 2^64 or more.
pub fn count_on(count: u64, more: u64) -> Result<u64, OutOfMemory>
    ensures sum { IfOk result (λ sum. sum ≡ count + more) }
    ensures past { OnErr result (2 ^ 64 ≤ count + more) }
{
    count.checked_add(more).ok_or(OutOfMemory)
}
