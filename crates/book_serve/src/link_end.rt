/// How the serving of a link ended. Done: all its requests were answered, up to its end, to one that was refused or to
/// one that closes it. Cut: it ended within a request. ReadFault: it could not be read, and its count of reads that
/// failed rose. WriteFault: it could not be written, and its count of writes that failed rose. Limit: 1,000,000
/// requests were answered, and the last left it open. OutOfMemory: there was no memory to read its next request, or to
/// refuse it.
#[derive(Clone, Copy, Debug, PartialEq, Eq)]
pub enum LinkEnd {
    Done,
    Cut,
    ReadFault,
    WriteFault,
    Limit,
    OutOfMemory,
}
