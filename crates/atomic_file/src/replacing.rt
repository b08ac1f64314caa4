//! A new content for a file that is there.
use std::alloc::Global;
use std::fs::{self, File, OpenFile, Permissions};
use std::io::{self, ErrorKind, Write};
use std::rt::Files;

/// How many names beside a file are tried for its new content.
const MAX_NAMES: u32 = 100;

/// Gives a file that is there another content, whole or not at all: a reader of the file sees the old
/// content or the new one, also where a call fails or the machine stops.
///
/// The content is written to a new file beside the old one, whose name has `.new` and a number
/// behind it, is flushed and synced, gets the old file's permissions, and is renamed. A link stays,
/// and the file to which it leads is replaced.
///
/// Errors: that of the first call that failed. The old file then stands as it was, and the new one is
/// removed.
pub fn replace<R: Files>(files: &R, alloc: Global, path: &str, content: &str) -> io::Result<()> {
    let target = files.canonicalize(alloc, path)?;
    let target = target.as_path().as_str();
    let permissions = files.metadata(target)?.permissions();
    for number in 0..MAX_NAMES {
        let beside = format!(in alloc; "{target}.new{number}")?;
        match fs::File::create_new(files, beside.as_str()) {
            Ok(file) => {
                return put(files, file, permissions, content, beside.as_str(), target);
            }
            Err(error) if error.kind() == ErrorKind::AlreadyExists => {}
            Err(error) => return Err(error),
        }
    }
    Err(io::Error::from(ErrorKind::AlreadyExists))
}

/// Fills a new file, and puts it in the place of another one. Where that fails the new one is removed.
fn put<R: Files>(
    files: &R,
    file: R::File,
    permissions: Permissions,
    content: &str,
    beside: &str,
    target: &str,
) -> io::Result<()> {
    let result = match fill(file, permissions, content) {
        Ok(()) => files.rename(beside, target),
        Err(error) => Err(error),
    };
    if result.is_err() {
        // The error that is told is the first one.
        let _ = files.remove_file(beside);
    }
    result
}

/// Writes the content and the permissions of a new file, and sees that they are on the disk.
fn fill<F: Write + OpenFile + Drop>(
    file: F,
    permissions: Permissions,
    content: &str,
) -> io::Result<()> {
    let mut file = file;
    file.write_all(content.as_bytes())?;
    file.flush()?;
    OpenFile::set_permissions(&file, permissions)?;
    OpenFile::sync_all(&file)
}
