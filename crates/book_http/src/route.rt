ghost use Rattle.std.specs.Prelude.{◌≡◌, ◌∷◌, ◌++◌, ℕ, List, true, false, IfOk, IfSome, IfNone};
ghost use Rattle.std.specs.List.{list_all};
ghost use Rattle.book_http.specs.Route.{FindsOfKind, is_parameter, is_parameter_byte, kind_of, takes_body};

use book_commodity::{OutOfMemory, Text};
use std::alloc::Global;

/// What a request asks for, with the parameters that its target has.
#[derive(Drop)]
pub enum Route {
    /// The command in the body.
    Command,
    /// The state of the book.
    Status,
    /// The trial balance at a day.
    Trial(Text),
    /// The balance sheet at a day.
    Sheet(Text),
    /// The income from a day to another.
    Income(Text, Text),
    /// The register of an account.
    Register(Text),
    /// The lots of an account.
    Lots(Text),
}

impl Route {
    /// The route without its parameters.
    pub(crate) fn kind(&self) -> RouteKind
        ensures { result ≡ kind_of self.now }
    {
        match self {
            Route::Command => RouteKind::Command,
            Route::Status => RouteKind::Status,
            Route::Trial(_) => RouteKind::Trial,
            Route::Sheet(_) => RouteKind::Sheet,
            Route::Income(_, _) => RouteKind::Income,
            Route::Register(_) => RouteKind::Register,
            Route::Lots(_) => RouteKind::Lots,
        }
    }
}

/// The routes without their parameters.
#[derive(Clone, Copy, Debug, PartialEq, Eq)]
pub enum RouteKind {
    Command,
    Status,
    Trial,
    Sheet,
    Income,
    Register,
    Lots,
}

impl RouteKind {
    /// Whether the route takes a command in the body, by the method POST.
    pub fn takes_body(self) -> bool
        ensures { result ≡ takes_body self }
    {
        matches!(self, RouteKind::Command)
    }
}

/// Whether no byte is a slash or a question mark.
fn are_parameter_bytes(text: &str) -> bool
    ensures { result ≡ list_all is_parameter_byte text.now }
{
    text.as_bytes()
        .iter()
        .all(|byte| *byte != b'/' && *byte != b'?')
}

/// Whether a text is a parameter.
fn is_parameter(text: &str) -> bool
    ensures { result ≡ is_parameter text.now }
{
    !text.is_empty() && are_parameter_bytes(text)
}

/// The text, where it is a parameter.
fn parameter(alloc: Global, text: &str) -> Result<Option<Text>, OutOfMemory>
    ensures some { IfOk result (λ found. IfSome found (λ parameter.
        (parameter ≡ text.now) × (is_parameter text.now ≡ true))) }
    ensures none { IfOk result (λ found. IfNone found (is_parameter text.now ≡ false)) }
{
    if is_parameter(text) {
        Ok(Some(Text::of(String::from_str(alloc, text)?)))
    } else {
        Ok(None)
    }
}

/// The parameter behind this front of a target, where it has this front and one parameter.
fn parameter_behind(alloc: Global, front: &str, target: &str) -> Result<Option<Text>, OutOfMemory>
    ensures some { IfOk result (λ found. IfSome found (λ parameter.
        (target.now ≡ front.now ++ parameter) × (is_parameter parameter ≡ true))) }
    ensures none { IfOk result (λ found. IfNone found ((parameter : List ℕ)
        → target.now ≡ front.now ++ parameter → is_parameter parameter ≡ true → ⊥)) }
{
    match target.strip_prefix(front) {
        Some(rest) => parameter(alloc, rest),
        None => Ok(None),
    }
}

/// The two parameters around the first slash of a text.
fn two_parameters(alloc: Global, text: &str) -> Result<Option<(Text, Text)>, OutOfMemory>
    ensures some { IfOk result (λ found. IfSome found (λ two. (text.now ≡ two.0 ++ 47 ∷ two.1)
        × (is_parameter two.0 ≡ true) × (is_parameter two.1 ≡ true))) }
    ensures none { IfOk result (λ found. IfNone found ((first last : List ℕ) → text.now ≡ first ++ 47 ∷ last
        → is_parameter first ≡ true → is_parameter last ≡ true → ⊥)) }
{
    let Some((first, last)) = text.split_once('/') else {
        return Ok(None);
    };
    let Some(first) = parameter(alloc, first)? else {
        return Ok(None);
    };
    match parameter(alloc, last)? {
        Some(last) => Ok(Some((first, last))),
        None => Ok(None),
    }
}

/// The route of the income between two days, where this is its target.
fn income(alloc: Global, target: &str) -> Result<Option<Route>, OutOfMemory>
    ensures { IfOk result (FindsOfKind target.now RouteKind.Income) }
{
    let Some(text) = target.strip_prefix("/income/") else {
        return Ok(None);
    };
    match two_parameters(alloc, text)? {
        Some((first, last)) => Ok(Some(Route::Income(first, last))),
        None => Ok(None),
    }
}

/// The route of this kind, where this is its target.
pub fn route_of_kind(
    alloc: Global,
    kind: RouteKind,
    target: &str,
) -> Result<Option<Route>, OutOfMemory>
    ensures { IfOk result (FindsOfKind target.now kind) }
{
    Ok(match kind {
        RouteKind::Command => (target == "/command").then_some(Route::Command),
        RouteKind::Status => (target == "/status").then_some(Route::Status),
        RouteKind::Trial => parameter_behind(alloc, "/trial/", target)?.map(Route::Trial),
        RouteKind::Sheet => parameter_behind(alloc, "/sheet/", target)?.map(Route::Sheet),
        RouteKind::Income => income(alloc, target)?,
        RouteKind::Register => parameter_behind(alloc, "/register/", target)?.map(Route::Register),
        RouteKind::Lots => parameter_behind(alloc, "/lots/", target)?.map(Route::Lots),
    })
}
