ghost use Rattle.std.specs.Prelude.{◌≡◌};

/// Drops a value that is not needed after all, and gives what comes in its place. A function that fails gives a large
/// value to this one: the check of a function that drops such a value on some ways alone takes minutes, and that of a
/// function that moves it on each way does not.
pub fn discard<V: Drop, A>(value: V, instead: A) -> A
    ensures { result ≡ instead }
{
    drop(value);
    instead
}
