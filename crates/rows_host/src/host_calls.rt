//! The calls of a site of real files. A row `folder` begins a site in an empty folder, and each row behind it is one call of it,
//! or what somebody does beside it. Rows that `host_commands` names run real commands on sites of their own there.

use crate::answers::number;
use crate::folder::enter;
use crate::host_commands::told_of;
use host::Host;
use site::{Site, SiteFault, Texts};
use std::alloc::{AllocError, Global};
use std::fs;
use tables::word;

/// A site, and the runtime in whose folder it is.
#[derive(Drop)]
pub struct Calls<'a> {
    rt: &'a HostRuntime,
    host: Host<'a, Vec<u8>>,
}

impl<'a> Calls<'a> {
    pub fn new(rt: &'a HostRuntime) -> Calls<'a> {
        Calls {
            rt,
            host: fresh(rt),
        }
    }

    /// `append PATH TEXT`, `replace PATH TEXT`, `write PATH TEXT`, `remove PATH` and `make_dirs PATH`; `None` for another row.
    fn change(&mut self, first: &str, rest: &str) -> Option<Result<(), SiteFault>> {
        let (path, text) = word(rest);
        match first {
            "append" => Some(self.host.append(path, text.as_bytes())),
            "replace" => Some(self.host.replace(path, text.as_bytes())),
            "write" => Some(self.host.write(path, text.as_bytes())),
            "remove" => Some(self.host.remove(path)),
            "make_dirs" => Some(self.host.make_dirs(path)),
            _ => None,
        }
    }

    /// `read PATH` and `stat PATH`: whether there is a file.
    fn push_look(
        &mut self,
        alloc: Global,
        first: &str,
        rest: &str,
        told: &mut String,
    ) -> Result<(), AllocError> {
        match first {
            "read" => push_found(self.host.read(rest).map(|content| content.is_some()), told),
            "stat" => self.push_stat(rest, told),
            "failures" => write!(told, "{}", self.host.failures()),
            "trouble" => self.push_trouble(told),
            _ => self.push_run(alloc, first, rest, told),
        }
    }

    /// `whichever EARLY LATE`, `printed COMMAND` and `restarted PATH COMMAND`, as `host_commands` says, and `ticks COUNT`.
    fn push_run(
        &mut self,
        alloc: Global,
        first: &str,
        rest: &str,
        told: &mut String,
    ) -> Result<(), AllocError> {
        match first {
            "whichever" | "printed" | "restarted" => push_text(told_of(self.rt, first, rest), told),
            "ticks" => self.push_ticks(rest, told),
            _ => self.push_stamp(alloc, first, rest, told),
        }
    }

    /// `stamp PATH`: when the file was written last. `stat_long COUNT PATH` and `stat_nul PATH`: whether there is a file at a path of
    /// so many bytes that leads to PATH, and at one with a NUL behind PATH.
    fn push_stamp(
        &mut self,
        alloc: Global,
        first: &str,
        rest: &str,
        told: &mut String,
    ) -> Result<(), AllocError> {
        match first {
            "stamp" => match self.host.stat(rest) {
                Ok(Some(stamp)) => write!(told, "{stamp}"),
                found => push_found(found.map(|stamp| stamp.is_some()), told),
            },
            "stat_long" => {
                let (count, name) = word(rest);
                let path = long_path(alloc, number(count), name)?;
                self.push_stat(path.as_str(), told)
            }
            "stat_nul" => {
                let path = format!(in alloc; "{rest}\0behind")?;
                self.push_stat(path.as_str(), told)
            }
            _ => self.push_beside(alloc, first, rest, told),
        }
    }

    fn push_stat(&mut self, path: &str, told: &mut String) -> Result<(), AllocError> {
        push_found(self.host.stat(path).map(|stamp| stamp.is_some()), told)
    }

    /// `holds PATH` and `exists PATH`: what others see.
    fn push_beside(
        &mut self,
        alloc: Global,
        first: &str,
        rest: &str,
        told: &mut String,
    ) -> Result<(), AllocError> {
        match first {
            "holds" => match fs::read_to_string(self.rt, rest) {
                Ok(text) => told.push_str(text.as_str()),
                Err(_) => told.push_str("no file"),
            },
            "exists" => push_found(
                fs::exists(self.rt, rest).map_err(|_| SiteFault::Device),
                told,
            ),
            _ => told.push_str("no such row"),
        }
    }

    /// `trouble`: which path the last refused call named. The site begins again.
    fn push_trouble(&mut self, told: &mut String) -> Result<(), AllocError> {
        let host = std::mem::replace(&mut self.host, fresh(self.rt));
        match host.into_trouble() {
            Some(trouble) => told.push_str(trouble.path.as_str()),
            None => told.push_str("no trouble"),
        }
    }

    /// `ticks COUNT`: how many ticks were no earlier than what was written before them, and no later than what was written
    /// after them.
    fn push_ticks(&mut self, count: &str, told: &mut String) -> Result<(), AllocError> {
        let mut between = 0u64;
        for _ in 0..number(count) {
            if self.ticks_between() == Some(true) {
                between = between.saturating_add(1);
            }
        }
        write!(told, "{between}")
    }

    fn ticks_between(&mut self) -> Option<bool> {
        fs::write(self.rt, "before", "x").ok()?;
        let tick = self.host.tick(".nj_tick").ok()?;
        fs::write(self.rt, "after", "x").ok()?;
        let before = self.host.stat("before").ok()??;
        let after = self.host.stat("after").ok()??;
        Some(before <= tick && tick <= after)
    }

    /// `folder PATH`: begins again in an empty folder. `put PATH TEXT`: somebody writes a file, and `delete PATH` deletes one.
    fn prepare(&mut self, first: &str, rest: &str) -> Option<bool> {
        let (path, text) = word(rest);
        match first {
            "folder" => {
                self.host = fresh(self.rt);
                Some(enter(self.rt, path).is_ok())
            }
            "put" => Some(fs::write(self.rt, path, text).is_ok()),
            "delete" => Some(fs::remove_file(self.rt, path).is_ok()),
            _ => None,
        }
    }
}

/// A path of so many bytes that leads to the file in this folder.
fn long_path(alloc: Global, count: usize, name: &str) -> Result<String, AllocError> {
    let mut path = String::from_str(alloc, ".")?;
    for _ in 1..count.saturating_sub(name.len()) {
        path.push_str("/")?;
    }
    path.push_str(name)?;
    Ok(path)
}

/// A site on which nothing has happened.
fn fresh(rt: &HostRuntime) -> Host<'_, Vec<u8>> {
    Host::new(rt.alloc(), rt, Vec::new(rt.alloc()))
}

impl Calls<'_> {
    pub fn answer(
        &mut self,
        alloc: Global,
        first: &str,
        rest: &str,
        told: &mut String,
    ) -> Result<bool, AllocError> {
        if let Some(done) = self.prepare(first, rest) {
            if !done {
                told.push_str("refused")?;
            }
            return Ok(!done);
        }
        match self.change(first, rest) {
            Some(Ok(())) => told.push_str("done")?,
            Some(Err(_)) => told.push_str("refused")?,
            None => self.push_look(alloc, first, rest, told)?,
        }
        Ok(true)
    }
}

fn push_found(found: Result<bool, SiteFault>, told: &mut String) -> Result<(), AllocError> {
    match found {
        Ok(true) => told.push_str("there"),
        Ok(false) => told.push_str("none"),
        Err(_) => told.push_str("refused"),
    }
}

fn push_text(text: Result<String, SiteFault>, told: &mut String) -> Result<(), AllocError> {
    match text {
        Ok(text) => told.push_str(text.as_str()),
        Err(_) => told.push_str("refused"),
    }
}
