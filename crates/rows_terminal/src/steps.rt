//! Steps of a build, as rows tell them.

use std::alloc::{AllocError, Global};
use std::mem;
use tables::unescaped;
use terminal::{Live, Look, Names};

/// The pattern, unless a row gives one.
const PATTERN: &str = "[%f/%t] ";

/// A build as far as it has come.
#[derive(Drop)]
pub struct Steps {
    look: Look,
    names: Names,
    live: Live,
    now: u64,
}

impl Steps {
    /// Nothing has happened.
    pub fn new(alloc: Global) -> Result<Steps, AllocError> {
        let look = Look {
            colours: false,
            keeps_lines: false,
        };
        Ok(Steps {
            look,
            names: Names::new(alloc),
            live: Live::new(alloc, look, PATTERN, 0)?,
            now: 0,
        })
    }

    /// From here on it looks so, and nothing has happened.
    fn begin(&mut self, alloc: Global, look: Look, pattern: &str) -> Result<(), AllocError> {
        self.look = look;
        self.live = Live::new(alloc, look, pattern, 0)?;
        Ok(())
    }

    /// Names the next job.
    fn name(&mut self, alloc: Global, name: &[u8]) -> Result<(), AllocError> {
        let name = String::from_utf8_lossy(alloc, name)?;
        self.names.push(name.as_str())
    }

    /// Hands the names over.
    fn hand_over(&mut self, alloc: Global) {
        let names = mem::replace(&mut self.names, Names::new(alloc));
        self.live.take_names(names);
    }
}

/// What a step writes.
pub fn written(alloc: Global, steps: &mut Steps, step: &str) -> Result<Vec<u8>, AllocError> {
    let (word, given) = step.split_once('=').unwrap_or((step, ""));
    let text = unescaped(alloc, given)?;
    let number = given.parse::<usize>().unwrap_or(0);
    match word {
        "look" => set_look(alloc, steps, given)?,
        "pattern" => {
            let look = steps.look;
            steps.begin(alloc, look, given)?;
        }
        "name" => steps.name(alloc, text.as_slice())?,
        "names" => steps.hand_over(alloc),
        "at" => steps.now = number as u64,
        "start" => steps.live.start(number, steps.now)?,
        "end" => steps.live.end(number, steps.now),
        "forget" => steps.live.forget(),
        "leave" => steps.live.leave_rows(),
        _ => return written_by(steps, word, number, text),
    }
    Ok(Vec::new(alloc))
}

/// What a step writes that writes.
fn written_by(
    steps: &mut Steps,
    word: &str,
    job: usize,
    text: Vec<u8>,
) -> Result<Vec<u8>, AllocError> {
    let now = steps.now;
    match word {
        "hold" => steps.live.hold(job, now),
        "show" => shown(&mut steps.live, text.as_slice(), now, true),
        "back" => {
            steps.live.forget();
            shown(&mut steps.live, text.as_slice(), now, false)
        }
        "pass" => steps.live.pass(now),
        "clear" => steps.live.clear(),
        "finish" => steps.live.finish(),
        _ => Ok(text),
    }
}

fn shown(live: &mut Live, text: &[u8], now: u64, may_draw: bool) -> Result<Vec<u8>, AllocError> {
    let text = live.coloured(text)?;
    live.show(text.as_slice(), now, may_draw)
}

fn set_look(alloc: Global, steps: &mut Steps, given: &str) -> Result<(), AllocError> {
    let look = Look {
        colours: given == "red",
        keeps_lines: given == "keeps",
    };
    steps.begin(alloc, look, PATTERN)
}
