use crate::route::Route;

/// An accepted head, and what its fields say of the request.
#[derive(Drop)]
pub struct AcceptedHead {
    pub route: Route,
    /// How many bytes the head has.
    pub head: usize,
    /// How many bytes the body has.
    pub body: usize,
    /// Whether the link closes after the answer.
    pub close: bool,
}

/// What the bytes of a link say of the head that they begin with.
#[derive(Drop)]
pub enum Judgement {
    /// No head has ended yet.
    Unfinished,
    /// It is refused with this status.
    Refused(u16),
    Accepted(AcceptedHead),
}
