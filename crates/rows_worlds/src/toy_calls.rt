//! The calls of a site in memory. A row `new` begins a site, and each row behind it is one call of it.

use crate::answers::{plain, push_number};
use crate::toys::run;
use sim::{Sim, Toy};
use site::{Event, Site, SiteFault, Texts};
use std::alloc::{AllocError, Global};
use tables::{push_word, unescaped, word};
use text::Bytes;

/// A site, and the response content of the next commands.
#[derive(Drop)]
pub struct Toys {
    sim: Sim<Toy>,
    response: String,
}

impl Toys {
    pub fn new(alloc: Global) -> Toys {
        Toys {
            sim: Sim::new(alloc, Toy),
            response: String::new(alloc),
        }
    }

    /// `put PATH TEXT` and `erase PATH`: somebody writes or deletes a file. `response TEXT` gives a response content.
    fn prepare(&mut self, alloc: Global, first: &str, rest: &str) -> Result<bool, AllocError> {
        match first {
            "new" => self.sim = Sim::new(alloc, Toy),
            "put" => {
                let (path, text) = word(rest);
                self.sim.put(path, unescaped(alloc, text)?.as_slice())?;
            }
            "erase" => self.sim.erase(rest)?,
            "response" => self.response = plain(alloc, rest)?,
            _ => return Ok(false),
        }
        Ok(true)
    }

    /// `run COMMAND`: whether it ended well.
    fn push_run(
        &mut self,
        alloc: Global,
        command: &str,
        told: &mut String,
    ) -> Result<(), AllocError> {
        let command = plain(alloc, command)?;
        match run(
            alloc,
            &mut self.sim,
            command.as_str(),
            self.response.as_str(),
        ) {
            Ok(true) => told.push_str("well"),
            Ok(false) => told.push_str("failed"),
            Err(_) => told.push_str("fault"),
        }
    }

    /// `read PATH`, `stat PATH`, `tick PATH`, and `held PATH` for what the file holds without a call.
    fn push_call(
        &mut self,
        alloc: Global,
        first: &str,
        rest: &str,
        told: &mut String,
    ) -> Result<(), AllocError> {
        match first {
            "held" => push_content(alloc, self.sim.content(rest), told),
            "read" => push_read(alloc, self.sim.read(rest), told),
            "stat" => push_stamp(alloc, self.sim.stat(rest), told),
            "tick" => push_stamp(alloc, self.sim.tick(rest).map(Some), told),
            _ => self.push_change(alloc, first, rest, told),
        }
    }

    /// `remove PATH`, `make_dirs PATH` and `append PATH TEXT`, and `failures` and `events` for what has happened.
    fn push_change(
        &mut self,
        alloc: Global,
        first: &str,
        rest: &str,
        told: &mut String,
    ) -> Result<(), AllocError> {
        match first {
            "remove" => push_done(self.sim.remove(rest), told),
            "make_dirs" => push_done(self.sim.make_dirs(rest), told),
            "append" => {
                let (path, text) = word(rest);
                push_done(self.sim.append(path, text.as_bytes()), told)
            }
            "failures" => push_number(alloc, self.sim.failures(), told),
            "events" => push_events(alloc, self.sim.events(), told),
            _ => told.push_str("no such row"),
        }
    }
}

impl Toys {
    pub fn answer(
        &mut self,
        alloc: Global,
        first: &str,
        rest: &str,
        told: &mut String,
    ) -> Result<bool, AllocError> {
        if self.prepare(alloc, first, rest)? {
            return Ok(false);
        }
        match first {
            "run" => self.push_run(alloc, rest, told)?,
            _ => self.push_call(alloc, first, rest, told)?,
        }
        Ok(true)
    }
}

fn push_content(
    alloc: Global,
    content: Option<&Bytes>,
    told: &mut String,
) -> Result<(), AllocError> {
    match content {
        Some(content) => {
            let text = String::from_utf8_lossy(alloc, content.as_slice())?;
            told.push_str(text.as_str())
        }
        None => told.push_str("no file"),
    }
}

fn push_read(
    alloc: Global,
    read: Result<Option<Bytes>, SiteFault>,
    told: &mut String,
) -> Result<(), AllocError> {
    match read {
        Ok(content) => push_content(alloc, content.as_ref(), told),
        Err(_) => told.push_str("fault"),
    }
}

fn push_stamp(
    alloc: Global,
    stamp: Result<Option<u64>, SiteFault>,
    told: &mut String,
) -> Result<(), AllocError> {
    match stamp {
        Ok(Some(stamp)) => push_number(alloc, stamp, told),
        Ok(None) => told.push_str("no file"),
        Err(_) => told.push_str("fault"),
    }
}

fn push_done(done: Result<(), SiteFault>, told: &mut String) -> Result<(), AllocError> {
    match done {
        Ok(()) => told.push_str("ok"),
        Err(_) => told.push_str("fault"),
    }
}

/// Each start and end with `;` behind it.
fn push_events(alloc: Global, events: &[Event], told: &mut String) -> Result<(), AllocError> {
    for event in events {
        push_event(alloc, event, told)?;
    }
    Ok(())
}

fn push_event(alloc: Global, event: &Event, told: &mut String) -> Result<(), AllocError> {
    let event = match event {
        Event::Start { job, act, stamp } => {
            let command = act.command.to_text(alloc)?;
            format!(in alloc; "start {job} at {stamp}: {};", command.as_str())?
        }
        Event::Finish { job, ok } => format!(in alloc; "end {job} {ok};")?,
    };
    push_word(told, event.as_str())
}
