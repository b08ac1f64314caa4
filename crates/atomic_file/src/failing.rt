//! A file system of which one call fails, and what is then left of a file that was to be replaced.
use crate::replace;
use std::alloc::Allocator;
use std::cell::Cell;
use std::fs::{self, Metadata, OpenFile, OpenOptions, Permissions};
use std::io::{self, ErrorKind, Read, Seek, SeekFrom, Write};
use std::os::unix::fs::PermissionsExt;
use std::path::PathBuf;
use std::rt::Files;

/// How many calls are made before one fails.
#[derive(Drop)]
struct Countdown {
    left: Cell<u32>,
}

impl Countdown {
    fn call(&self) -> io::Result<()> {
        let left = self.left.get();
        self.left.set(left.wrapping_sub(1));
        match left {
            0 => Err(io::Error::from(ErrorKind::Other)),
            _ => Ok(()),
        }
    }
}

/// The file system of a runtime. One call fails, of it or of a file.
#[derive(Drop)]
struct Failing<'a, R> {
    files: &'a R,
    countdown: &'a Countdown,
}

#[derive(Drop)]
struct FailingFile<'a, F> {
    file: F,
    countdown: &'a Countdown,
}

impl<F: Read + Drop> Read for FailingFile<'_, F> {
    fn read(&mut self, buffer: &mut [u8]) -> io::Result<usize> {
        self.countdown.call()?;
        self.file.read(buffer)
    }
}

impl<F: Write + Drop> Write for FailingFile<'_, F> {
    fn write(&mut self, bytes: &[u8]) -> io::Result<usize> {
        self.countdown.call()?;
        self.file.write(bytes)
    }

    fn flush(&mut self) -> io::Result<()> {
        self.countdown.call()?;
        self.file.flush()
    }
}

impl<F: Seek + Drop> Seek for FailingFile<'_, F> {
    fn seek(&mut self, to: SeekFrom) -> io::Result<u64> {
        self.countdown.call()?;
        self.file.seek(to)
    }
}

impl<F: OpenFile + Drop> OpenFile for FailingFile<'_, F> {
    fn metadata(&self) -> io::Result<Metadata> {
        self.countdown.call()?;
        self.file.metadata()
    }

    fn set_len(&self, size: u64) -> io::Result<()> {
        self.countdown.call()?;
        self.file.set_len(size)
    }

    fn sync_all(&self) -> io::Result<()> {
        self.countdown.call()?;
        self.file.sync_all()
    }

    fn sync_data(&self) -> io::Result<()> {
        self.countdown.call()?;
        self.file.sync_data()
    }

    fn set_permissions(&self, permissions: Permissions) -> io::Result<()> {
        self.countdown.call()?;
        OpenFile::set_permissions(&self.file, permissions)
    }
}

impl<'a, R: Files> Files for Failing<'a, R> {
    type File = FailingFile<'a, R::File>;

    type Dir = R::Dir;

    fn open_file(&self, how: &OpenOptions, path: &str) -> io::Result<Self::File> {
        self.countdown.call()?;
        Ok(FailingFile {
            file: self.files.open_file(how, path)?,
            countdown: self.countdown,
        })
    }

    fn open_dir(&self, path: &str) -> io::Result<R::Dir> {
        self.files.open_dir(path)
    }

    fn metadata(&self, path: &str) -> io::Result<Metadata> {
        self.countdown.call()?;
        self.files.metadata(path)
    }

    fn symlink_metadata(&self, path: &str) -> io::Result<Metadata> {
        self.files.symlink_metadata(path)
    }

    fn copy(&self, from: &str, to: &str) -> io::Result<u64> {
        self.files.copy(from, to)
    }

    fn rename(&self, from: &str, to: &str) -> io::Result<()> {
        self.countdown.call()?;
        self.files.rename(from, to)
    }

    fn remove_file(&self, path: &str) -> io::Result<()> {
        self.countdown.call()?;
        self.files.remove_file(path)
    }

    fn create_dir(&self, path: &str) -> io::Result<()> {
        self.files.create_dir(path)
    }

    fn remove_dir(&self, path: &str) -> io::Result<()> {
        self.files.remove_dir(path)
    }

    fn remove_dir_all<B: Allocator>(&self, alloc: B, path: &str) -> io::Result<()> {
        self.files.remove_dir_all(alloc, path)
    }

    fn canonicalize<B: Allocator>(&self, alloc: B, path: &str) -> io::Result<PathBuf<B>> {
        self.countdown.call()?;
        self.files.canonicalize(alloc, path)
    }
}

const NAME: &str = "replaced.txt";

const OLD: &str = "old\n";

const NEW: &str = "new\nand longer\n";

/// Lets one call fail, and says whether all calls were made before it came to that.
fn replaced(rt: &HostRuntime, before: u32) -> io::Result<bool> {
    fs::write(rt, NAME, OLD)?;
    let countdown = Countdown {
        left: Cell::new(before),
    };
    let files = Failing {
        files: rt,
        countdown: &countdown,
    };
    Ok(replace(&files, rt.alloc(), NAME, NEW).is_ok())
}

fn content(rt: &HostRuntime) -> io::Result<String> {
    fs::read_to_string(rt, NAME)
}

/// Whether a new file is left beside the old one.
fn is_left(rt: &HostRuntime) -> io::Result<bool> {
    fs::exists(rt, "replaced.txt.new0")
}

#[test]
fn each_call_fails_in_turn(rt: HostRuntime) -> io::Result<()> {
    for before in 0..8 {
        assert!(rt; !replaced(&rt, before)?, "at {before}");
        assert_eq!(rt; content(&rt)?.as_str(), OLD, "at {before}");
        assert!(rt; !is_left(&rt)?, "at {before}");
    }
    assert!(rt; replaced(&rt, 8)?);
    assert_eq!(rt; content(&rt)?.as_str(), NEW);
    assert!(rt; !is_left(&rt)?);
    fs::remove_file(&rt, NAME)
}

#[test]
fn a_link_stays_and_so_does_a_mode(rt: HostRuntime) -> io::Result<()> {
    fs::write(&rt, "linked.txt", OLD)?;
    fs::set_permissions(&rt, "linked.txt", Permissions::from_mode(0o640))?;
    rt.symlink("linked.txt", "link.txt")?;
    replace(&rt, rt.alloc(), "link.txt", NEW)?;
    assert!(rt; fs::symlink_metadata(&rt, "link.txt")?.is_symlink());
    assert_eq!(rt; fs::read_to_string(&rt, "linked.txt")?.as_str(), NEW);
    let mode = fs::metadata(&rt, "linked.txt")?.permissions().mode();
    assert_eq!(rt; mode & 0o777, 0o640);
    fs::remove_file(&rt, "link.txt")?;
    fs::remove_file(&rt, "linked.txt")
}
