use book_commodity::Text;

/// Why a line is no command that can be tried.
#[derive(Drop)]
pub enum WireError {
    /// It is not in UTF-8, no JSON text, or nested more than 127 deep.
    NotJson,
    /// It is JSON, and this is the member that fails first: it is needed and absent, of another form, or not asked
    /// for. The name is empty where the line is no object.
    NotCommand { field: Text },
    /// Out of memory.
    OutOfMemory,
}
