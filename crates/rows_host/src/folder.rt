//! A folder to work in.

use std::alloc::Global;
use std::os::unix::fs::MetadataExt;
use std::{env, fs, io, process};

/// A folder below the one for temporary files, which no other process has.
#[derive(Drop)]
pub struct Folder<'a> {
    pub rt: &'a HostRuntime,
    pub path: String,
}

/// How many files are written until the clock of files has gone on.
const MANY_STAMPS: usize = 100_000;

impl<'a> Folder<'a> {
    /// The folder, which is not there yet.
    pub fn new(rt: &'a HostRuntime) -> io::Result<Folder<'a>> {
        let number = process::id(rt.process());
        let temp = env::temp_dir(rt)?;
        let temp = temp.display();
        let path = format!(in rt.alloc(); "{temp}/rows_host_{number}")?;
        Ok(Folder { rt, path })
    }

    /// Makes the folder empty, and goes out of it.
    pub fn begin(&self) -> io::Result<()> {
        env::set_current_dir(self.rt, "/")?;
        let _ = fs::remove_dir_all(self.rt, self.path.as_str());
        fs::create_dir_all(self.rt, self.path.as_str())
    }

    /// Makes the folder empty, and goes there.
    pub fn enter(&self) -> io::Result<()> {
        enter(self.rt, self.path.as_str())
    }

    /// Removes the folder and what it holds, if it is there.
    pub fn leave(&self) {
        let _ = env::set_current_dir(self.rt, "/");
        let _ = fs::remove_dir_all(self.rt, self.path.as_str());
    }

    pub fn alloc(&self) -> Global {
        self.rt.alloc()
    }

    fn whole(&self, path: &str) -> io::Result<String> {
        let folder = self.path.as_str();
        Ok(format!(in self.rt.alloc(); "{folder}/{path}")?)
    }

    pub fn write(&self, path: &str, content: &[u8]) -> io::Result<()> {
        fs::write(self.rt, self.whole(path)?.as_str(), content)
    }

    /// Writes the file under a later stamp than any file has, also where the clock of files is coarse.
    pub fn write_later(&self, path: &str, content: &[u8]) -> io::Result<()> {
        let before = self.stamp_now()?;
        for _ in 0..MANY_STAMPS {
            if self.stamp_now()? != before {
                return self.write(path, content);
            }
        }
        self.write(path, content)
    }

    /// The stamp of a file that is written now.
    fn stamp_now(&self) -> io::Result<i64> {
        self.write("stamp", b"x")?;
        let path = self.whole("stamp")?;
        Ok(fs::metadata(self.rt, path.as_str())?.mtime_nsec())
    }

    pub fn remove(&self, path: &str) -> io::Result<()> {
        fs::remove_file(self.rt, self.whole(path)?.as_str())
    }

    pub fn make_dir(&self, path: &str) -> io::Result<()> {
        fs::create_dir_all(self.rt, self.whole(path)?.as_str())
    }

    pub fn remove_dir(&self, path: &str) -> io::Result<()> {
        fs::remove_dir_all(self.rt, self.whole(path)?.as_str())
    }

    pub fn has(&self, path: &str) -> io::Result<bool> {
        fs::exists(self.rt, self.whole(path)?.as_str())
    }

    /// Whether there is a path that begins so, and has no more parts.
    pub fn has_some(&self, start: &str) -> io::Result<bool> {
        let (below, start) = start.rsplit_once('/').unwrap_or(("", start));
        let folder = self.whole(below)?;
        for entry in fs::read_dir(self.rt, folder.as_str())? {
            let entry = entry?;
            if entry.file_name().starts_with(start) {
                return Ok(true);
            }
        }
        Ok(false)
    }

    pub fn read(&self, path: &str) -> io::Result<String> {
        fs::read_to_string(self.rt, self.whole(path)?.as_str())
    }
}

/// Makes the folder empty, and goes there.
pub fn enter(rt: &HostRuntime, path: &str) -> io::Result<()> {
    let _ = fs::remove_dir_all(rt, path);
    fs::create_dir_all(rt, path)?;
    env::set_current_dir(rt, path)
}
