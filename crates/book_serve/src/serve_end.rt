/// How the serving of links ended. Done: as many links were served as were asked for, or no more came. PortFault: the
/// ports failed to give the next link, and their count of faults rose. OutOfMemory: a link ended so.
#[derive(Clone, Copy, Debug, PartialEq, Eq)]
pub enum ServeEnd {
    Done,
    PortFault,
    OutOfMemory,
}
