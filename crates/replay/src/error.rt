// Why a file of call lists is not replayed to its end.
use std::io;

#[derive(Drop)]
pub(crate) enum ReplayError {
    Io(io::Error),
    // The file is not what record.rt says.
    Malformed,
}

// A file that ends within a number or a list is malformed.
impl From<io::Error> for ReplayError {
    fn from(e: io::Error) -> ReplayError {
        match e.kind() {
            io::ErrorKind::UnexpectedEof => ReplayError::Malformed,
            _ => ReplayError::Io(e),
        }
    }
}
