//! The paths of a project and what its sources hold.

use crate::random::Random;
use std::alloc::{AllocError, Global};

/// Words in the names of headers, so that these are of many lengths.
const WORDS: [&str; 11] = [
    "io",
    "buffer",
    "string_view",
    "map",
    "allocator_traits",
    "hash",
    "vector",
    "thread_pool",
    "x",
    "type_list",
    "config",
];

/// The headers of a project, and about how many of them a unit reads.
#[derive(Drop)]
pub struct Headers {
    /// The path of each.
    pub paths: Vec<String>,
    /// A unit reads about so many at least.
    pub least: usize,
    /// A unit reads fewer than so many beyond these, and one at least.
    pub beyond: usize,
}

impl Headers {
    /// So many headers below this folder, in folders of twenty, of which a unit reads about so many.
    pub fn new(
        alloc: Global,
        top: &str,
        count: usize,
        (least, beyond): (usize, usize),
    ) -> Result<Headers, AllocError> {
        let mut paths = Vec::new(alloc);
        for number in 0..count {
            let part = number.checked_div(20).unwrap_or(0);
            let word = word_of(number);
            paths.push(format!(in alloc; "{top}/include/part{part}/{word}_{number}.h")?)?;
        }
        Ok(Headers {
            paths,
            least,
            beyond,
        })
    }

    /// The lines of a unit that reads some of them, drawn at random, in the order in which all stand.
    pub fn source(&self, alloc: Global, random: &mut Random) -> Result<String, AllocError> {
        let wanted = self.least.saturating_add(random.below(self.beyond));
        let gap = self.paths.len().checked_div(wanted).unwrap_or(0);
        let most = gap.saturating_mul(2);
        let mut text = String::new(alloc);
        let mut place = random.below(most);
        for _ in 0..self.paths.len() {
            let Some(path) = self.paths.get(place) else {
                break;
            };
            text.push_str("use ")?;
            text.push_str(path.as_str())?;
            text.push('\n')?;
            place = place.saturating_add(1).saturating_add(random.below(most));
        }
        Ok(text)
    }
}

/// A word in the name of a header.
fn word_of(number: usize) -> &'static str {
    let place = number.checked_rem(WORDS.len()).unwrap_or(0);
    WORDS.get(place).copied().unwrap_or("")
}

/// The path of a unit's source, without its ending.
pub fn unit(alloc: Global, number: usize) -> Result<String, AllocError> {
    let library = library_of(number);
    format!(in alloc; "lib{library:02}/source/unit_{number:05}")
}

/// The path of what is made of a unit.
pub fn object(alloc: Global, number: usize) -> Result<String, AllocError> {
    let (library, end) = (library_of(number), ending(number));
    format!(in alloc; "CMakeFiles/lib{library:02}.dir/source/unit_{number:05}.{end}.o")
}

/// Which library a unit is of: each has 250.
pub fn library_of(number: usize) -> usize {
    number.checked_div(250).unwrap_or(0)
}

/// One unit in eight is a C file.
pub fn ending(number: usize) -> &'static str {
    if number.checked_rem(8) == Some(7) {
        "c"
    } else {
        "cc"
    }
}
