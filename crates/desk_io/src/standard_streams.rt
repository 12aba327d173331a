use std::fs::File;
use std::os::fd::{AsRawFd, IntoRawFd};

/// The greatest number of a standard stream, that of standard error.
const LAST_STREAM: i32 = 2;

/// Fills the places of standard streams that were closed when the program began, so that no file
/// that is opened later becomes the answer or the complaints.
///
/// The system gives the lowest free number to what is opened, so this ends at the first number
/// behind the streams. A folder that is open for reading stands in the place of a closed stream for
/// the program's life: as on a closed stream no write to it succeeds, and no read, while the null
/// device would be read as an empty file. Where no folder can be opened nothing is filled.
pub(crate) fn fill_closed_streams(rt: &HostRuntime) {
    for _ in 0..=LAST_STREAM {
        match File::open(rt, "/") {
            Ok(folder) if folder.as_raw_fd() <= LAST_STREAM => {
                let _stays_open = folder.into_raw_fd();
            }
            _ => return,
        }
    }
}
