//! A story is written beside its file and then takes its place, so that the file holds a whole story at any time, the old or the new.
use source_player::ProgramFault;
use std::alloc::AllocError;
use std::fs::{self, File, Metadata};
use std::io::{self, ErrorKind, Write};
use std::os::unix::fs::MetadataExt;

/// As many names beside a file are tried: other compilers may be writing beside it, or have been ended there.
const MOST_TRIES: u32 = 1000;

/// Why a file isn't written.
#[derive(Clone, Copy, Drop)]
enum Unwritten {
    Memory,
    /// No file may be made beside it.
    NotBeside,
    Failed,
}

impl From<AllocError> for Unwritten {
    fn from(_: AllocError) -> Unwritten {
        Unwritten::Memory
    }
}

impl From<io::Error> for Unwritten {
    fn from(error: io::Error) -> Unwritten {
        match error.kind() {
            ErrorKind::OutOfMemory => Unwritten::Memory,
            ErrorKind::PermissionDenied | ErrorKind::InvalidFilename => Unwritten::NotBeside,
            _ => Unwritten::Failed,
        }
    }
}

/// Whether two paths lead to one file.
pub fn is_same_file(rt: &HostRuntime, one: &str, other: &str) -> bool {
    match (fs::metadata(rt, one), fs::metadata(rt, other)) {
        (Ok(one), Ok(other)) => one.dev() == other.dev() && one.ino() == other.ino(),
        _ => false,
    }
}

/// Whether a path leads to what a process holds open, as `/dev/stdout` does: another file can't take the place of that.
fn is_held_open(path: &str) -> bool {
    path.starts_with("/dev/") || path.starts_with("/proc/")
}

/// A new file beside a path, and its own path.
fn beside(rt: &HostRuntime, path: &str) -> Result<(File, String), Unwritten> {
    for number in 0..MOST_TRIES {
        let name = format!(in rt.alloc(); "{path}.{number}.new")?;
        match File::create_new(rt, name.as_str()) {
            Ok(file) => return Ok((file, name)),
            Err(error) if error.kind() == ErrorKind::AlreadyExists => {}
            Err(error) => return Err(Unwritten::from(error)),
        }
    }
    Err(Unwritten::Failed)
}

/// Writes all bytes to a new file, with the mode of the file whose place it is to take.
fn fill(file: &mut File, old: Option<&Metadata>, bytes: &[u8]) -> io::Result<()> {
    file.write_all(bytes)?;
    if let Some(old) = old {
        file.set_permissions(old.permissions())?;
    }
    file.sync_all()
}

/// Writes bytes beside a file of this path, and puts them in its place; what was written beside it is removed where that fails.
fn replace(
    rt: &HostRuntime,
    path: &str,
    old: Option<&Metadata>,
    bytes: &[u8],
) -> Result<(), Unwritten> {
    let (mut file, name) = beside(rt, path)?;
    let filled = fill(&mut file, old, bytes);
    drop(file);
    match filled.and_then(|_| fs::rename(rt, name.as_str(), path)) {
        Ok(()) => Ok(()),
        Err(error) => {
            let _ = fs::remove_file(rt, name.as_str());
            match Unwritten::from(error) {
                Unwritten::Memory => Err(Unwritten::Memory),
                _ => Err(Unwritten::Failed),
            }
        }
    }
}

/// Puts bytes at a path where no file is; a link that leads nowhere stays a link.
fn put_new(rt: &HostRuntime, path: &str, bytes: &[u8]) -> Result<(), Unwritten> {
    if fs::symlink_metadata(rt, path).is_ok() {
        return Err(Unwritten::NotBeside);
    }
    replace(rt, path, None, bytes)
}

/// Puts bytes in the place of the file that a path leads to, if that is a plain file, or of none.
fn put(rt: &HostRuntime, path: &str, bytes: &[u8]) -> Result<(), Unwritten> {
    match fs::metadata(rt, path) {
        Ok(old) if old.is_file() => {
            let whole = fs::canonicalize(rt, path)?;
            if is_held_open(whole.as_str()) {
                return Err(Unwritten::NotBeside);
            }
            replace(rt, whole.as_str(), Some(&old), bytes)
        }
        Err(error) if error.kind() == ErrorKind::NotFound => put_new(rt, path, bytes),
        _ => Err(Unwritten::NotBeside),
    }
}

/// Writes a file whole or leaves it as it was, where another can take its place; else, as to a pipe, writes to it as it stands.
pub fn save<'a>(rt: &HostRuntime, path: &'a str, bytes: &[u8]) -> Result<(), ProgramFault<'a>> {
    let put = if is_held_open(path) {
        Err(Unwritten::NotBeside)
    } else {
        put(rt, path, bytes)
    };
    match put {
        Ok(()) => Ok(()),
        Err(Unwritten::Memory) => Err(ProgramFault::Memory),
        Err(Unwritten::Failed) => Err(ProgramFault::CannotWrite(path)),
        Err(Unwritten::NotBeside) => {
            fs::write(rt, path, bytes).map_err(|_| ProgramFault::CannotWrite(path))
        }
    }
}
