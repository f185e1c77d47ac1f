//! A project of C and C++: units with depfiles, an archive for each library, and a program of all. Sources and headers have absolute
//! paths, as CMake writes them, or lie beside the build folder, as with Meson.
//!
//! `edited`: it is built from nothing, and then after each edit of one unit. `touched`: likewise, but a header is edited that a tenth of the
//! units read, so that logs grow. `nothing`: another project is built from nothing in each round, with commands that end in another order.

use crate::desk::Desk;
use crate::digest::Digest;
use crate::files::{Headers, ending, library_of, object, unit};
use crate::random::Random;
use crate::workloads::Asked;
use std::alloc::{AllocError, Global};

const RULES: &str = "ninja_required_version = 1.5
cxxflags = -O2 -g -Wall -Wextra -Wpedantic -fno-exceptions -fno-rtti -fvisibility=hidden -fPIC -std=gnu++20 -pthread
cflags = -O2 -g -Wall -Wextra -fvisibility=hidden -fPIC -std=gnu11
rule CXX_COMPILER
  command = scan $out $out.d $in $cxxflags $DEFINES $INCLUDES $FLAGS -MD -MT $out -MF $out.d -o $out -c $in
  depfile = $out.d
  deps = gcc
  description = Building CXX object $out
rule C_COMPILER
  command = scan $out $out.d $in $cflags $DEFINES $INCLUDES $FLAGS -MD -MT $out -MF $out.d -o $out -c $in
  depfile = $out.d
  deps = gcc
  description = Building C object $out
rule ARCHIVE
  command = cat $out $in
  description = Linking CXX static library $out
  restat = 1
rule LINK
  command = cat $out $in
  description = Linking CXX executable $out
";

/// Where the sources lie.
const ABSOLUTE: &str = "/home/user/work/project";

const BESIDE: &str = "..";

/// A project, and who changes it.
#[derive(Drop)]
struct Project {
    alloc: Global,
    /// The folder of the sources.
    top: &'static str,
    units: usize,
    headers: Headers,
    random: Random,
}

/// A build from nothing, and one after each edit of a unit.
pub fn push_edited(alloc: Global, asked: Asked<'_>, digest: &mut Digest) -> Result<(), AllocError> {
    let mut project = Project::new(alloc, asked, ABSOLUTE, 1000, (55, 1))?;
    project.build_edited(asked.rounds, digest)
}

/// A build from nothing, and one after each edit of a header.
pub fn push_touched(
    alloc: Global,
    asked: Asked<'_>,
    digest: &mut Digest,
) -> Result<(), AllocError> {
    let mut project = Project::new(alloc, asked, BESIDE, 500, (50, 1))?;
    project.build_touched(asked.rounds, digest)
}

/// In each round a build of another project from nothing.
pub fn push_from_nothing(
    alloc: Global,
    asked: Asked<'_>,
    digest: &mut Digest,
) -> Result<(), AllocError> {
    for round in 0..asked.rounds {
        let seed = asked.seed.wrapping_add((round as u64) << 32);
        build_from_nothing(alloc, Asked { seed, ..asked }, round % 2 == 1, digest)?;
    }
    Ok(())
}

fn build_from_nothing(
    alloc: Global,
    asked: Asked<'_>,
    turned: bool,
    digest: &mut Digest,
) -> Result<(), AllocError> {
    let top = if turned { BESIDE } else { ABSOLUTE };
    let mut project = Project::new(alloc, asked, top, 1000, (25, 176))?;
    project.build_once(turned, digest)
}

impl Project {
    fn new(
        alloc: Global,
        asked: Asked<'_>,
        top: &'static str,
        headers: usize,
        told: (usize, usize),
    ) -> Result<Project, AllocError> {
        Ok(Project {
            alloc,
            top,
            units: asked.size,
            headers: Headers::new(alloc, top, headers, told)?,
            random: Random::new(asked.seed),
        })
    }

    /// A build from nothing, and so many after an edit of a unit, at a place of its own.
    fn build_edited(&mut self, rounds: usize, digest: &mut Digest) -> Result<(), AllocError> {
        let mut desk = Desk::new(self.alloc, 8)?;
        self.edit_units(&mut desk, rounds, digest)
    }

    fn edit_units(
        &mut self,
        desk: &mut Desk,
        rounds: usize,
        digest: &mut Digest,
    ) -> Result<(), AllocError> {
        self.begin(desk, digest)?;
        for _ in 0..rounds {
            let units = self.units;
            let unit = self.random.below(units);
            self.put_unit(desk, unit)?;
            desk.build(digest)?;
        }
        self.end(desk, digest)
    }

    /// A build from nothing, and so many after an edit of a header, at a place of its own.
    fn build_touched(&mut self, rounds: usize, digest: &mut Digest) -> Result<(), AllocError> {
        let mut desk = Desk::new(self.alloc, 8)?;
        self.edit_headers(&mut desk, rounds, digest)
    }

    fn edit_headers(
        &mut self,
        desk: &mut Desk,
        rounds: usize,
        digest: &mut Digest,
    ) -> Result<(), AllocError> {
        self.begin(desk, digest)?;
        for round in 0..rounds {
            self.touch(desk, round)?;
            desk.build(digest)?;
        }
        self.end(desk, digest)
    }

    /// A build from nothing, at a place of its own.
    fn build_once(&mut self, turned: bool, digest: &mut Digest) -> Result<(), AllocError> {
        let mut desk = Desk::new(self.alloc, 4)?;
        if turned {
            desk.turn();
        }
        self.build_on(&mut desk, digest)
    }

    fn build_on(&mut self, desk: &mut Desk, digest: &mut Digest) -> Result<(), AllocError> {
        self.begin(desk, digest)?;
        self.end(desk, digest)
    }

    /// The first build.
    fn begin(&mut self, desk: &mut Desk, digest: &mut Digest) -> Result<(), AllocError> {
        self.put_all(desk)?;
        desk.build(digest)
    }

    /// All files of the project.
    fn put_all(&mut self, desk: &mut Desk) -> Result<(), AllocError> {
        for path in &self.headers.paths {
            desk.put(path.as_str(), b"h")?;
        }
        for number in 0..self.units {
            self.put_unit(desk, number)?;
        }
        let text = self.build_file()?;
        desk.put("build.ninja", text.as_bytes())
    }

    /// A user writes the source of a unit, which reads other headers then.
    fn put_unit(&mut self, desk: &mut Desk, number: usize) -> Result<(), AllocError> {
        let source = self.headers.source(self.alloc, &mut self.random)?;
        let (name, end) = (unit(self.alloc, number)?, ending(number));
        let top = self.top;
        let path = format!(in self.alloc; "{top}/src/{name}.{end}")?;
        desk.put(path.as_str(), source.as_bytes())
    }

    /// A user writes some header.
    fn touch(&mut self, desk: &mut Desk, round: usize) -> Result<(), AllocError> {
        let number = self.random.below(self.headers.paths.len());
        let content = format!(in self.alloc; "{round}")?;
        match self.headers.paths.get(number) {
            Some(path) => desk.put(path.as_str(), content.as_bytes()),
            None => Ok(()),
        }
    }

    /// Takes in what all made files hold.
    fn end(&self, desk: &Desk, digest: &mut Digest) -> Result<(), AllocError> {
        for number in 0..self.units {
            desk.add_file(object(self.alloc, number)?.as_str(), digest);
        }
        desk.add_file("bin/program", digest);
        Ok(())
    }

    fn build_file(&mut self) -> Result<String, AllocError> {
        let mut text = String::from_str(self.alloc, RULES)?;
        self.push_edges(&mut text)?;
        Ok(text)
    }

    fn push_edges(&mut self, text: &mut String) -> Result<(), AllocError> {
        for number in 0..self.units {
            self.push_unit(number, text)?;
        }
        let libraries = library_of(self.units.saturating_sub(1)).saturating_add(1);
        for library in 0..libraries {
            self.push_library(library, text)?;
        }
        self.push_program(libraries, text)
    }

    /// The lines of a unit. Its flags take 100 to 800 bytes.
    fn push_unit(&mut self, number: usize, text: &mut String) -> Result<(), AllocError> {
        self.push_paths(number, text)?;
        let (library, top) = (library_of(number), self.top);
        write!(
            text,
            " || cmake_object_order_depends_target_lib{library:02}\n"
        )?;
        write!(
            text,
            "  DEFINES = -DLIBRARY={library} -DUNIT={number} -DNDEBUG -D_GNU_SOURCE\n"
        )?;
        text.push_str("  FLAGS = -march=x86-64-v2\n  INCLUDES =")?;
        for folder in 0..self.random.below(25) {
            write!(text, " -I{top}/include/part{folder:02}")?;
        }
        text.push('\n')
    }

    fn push_paths(&self, number: usize, text: &mut String) -> Result<(), AllocError> {
        let (name, object) = (unit(self.alloc, number)?, object(self.alloc, number)?);
        let (top, end) = (self.top, ending(number));
        let rule = if end == "c" {
            "C_COMPILER"
        } else {
            "CXX_COMPILER"
        };
        write!(text, "build {object}: {rule} {top}/src/{name}.{end}")
    }

    /// The archive of a library, and the phony edge that CMake puts before its units.
    fn push_library(&self, library: usize, text: &mut String) -> Result<(), AllocError> {
        write!(
            text,
            "build cmake_object_order_depends_target_lib{library:02}: phony\n"
        )?;
        write!(text, "build lib/lib{library:02}.a: ARCHIVE")?;
        let first = library.saturating_mul(250);
        for number in first..first.saturating_add(250).min(self.units) {
            let object = object(self.alloc, number)?;
            write!(text, " {object}")?;
        }
        text.push('\n')
    }

    fn push_program(&self, libraries: usize, text: &mut String) -> Result<(), AllocError> {
        text.push_str("build bin/program: LINK")?;
        for library in 0..libraries {
            write!(text, " lib/lib{library:02}.a")?;
        }
        text.push_str("\nbuild all: phony bin/program\ndefault all\n")
    }
}
