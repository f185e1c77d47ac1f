//! `read`: what a user waits for whose generator has written other build files: they are read, and nothing is built.
//!
//! In each round three forms of them: as CMake's, with variables below each edge; as GN's, with a file and a scope for each target; and long
//! lines, as of archives and programs.

ghost use Rattle.std.specs.Prelude.{◌<◌, length};

use crate::desk::{add_act, add_report};
use crate::digest::Digest;
use crate::random::Random;
use crate::workloads::Asked;
use builder::{Options, Reading, Report, read};
use model::{Deps, Pool};
use paths::{Action, Command, EdgeId, Manifest, PathId, Paths};
use sim::{Sim, Toy};
use status::Pattern;
use std::alloc::{AllocError, Global};
use text::Text;

const CMAKE: &str = "rule CXX
  depfile = $DEP_FILE
  deps = gcc
  command = /usr/bin/c++ $DEFINES $INCLUDES $FLAGS -MD -MT $out -MF $DEP_FILE -o $out -c $in
  description = Building CXX object $out
";

const GN: &str = "cxx = clang++
rule stamp
  command = touch $out
rule cxx
  command = $cxx -MMD -MF $out.d $defines $include_dirs $cflags $cflags_cc -c $in -o $out
  depfile = $out.d
  deps = gcc
  description = CXX $out
";

const LONG: &str = "rule link
  command = g++ $LINK_FLAGS $in -o $out $LINK_PATH $LINK_LIBRARIES
  rspfile = $out.rsp
  rspfile_content = $in_newline $LINK_LIBRARIES
  pool = links
pool links
  depth = 2
";

/// Reads build files of each form in each round.
pub fn push_read(alloc: Global, asked: Asked<'_>, digest: &mut Digest) -> Result<(), AllocError> {
    let mut random = Random::new(asked.seed);
    for _ in 0..asked.rounds {
        let mut site = Sim::new(alloc, Toy);
        read_forms(alloc, &mut site, asked.size, &mut random, digest)?;
    }
    Ok(())
}

fn read_forms(
    alloc: Global,
    site: &mut Sim<Toy>,
    edges: usize,
    random: &mut Random,
    digest: &mut Digest,
) -> Result<(), AllocError> {
    put_cmake(alloc, site, edges, random)?;
    add_read(alloc, site, digest)?;
    put_gn(alloc, site, edges, random)?;
    add_read(alloc, site, digest)?;
    put_long(alloc, site, edges, random)?;
    add_read(alloc, site, digest)
}

fn put_cmake(
    alloc: Global,
    site: &mut Sim<Toy>,
    edges: usize,
    random: &mut Random,
) -> Result<(), AllocError> {
    let mut text = String::from_str(alloc, CMAKE)?;
    push_cmake(edges, random, &mut text)?;
    site.put("build.ninja", text.as_bytes())
}

fn push_cmake(edges: usize, random: &mut Random, text: &mut String) -> Result<(), AllocError> {
    for edge in 0..edges {
        let target = edge.checked_div(40).unwrap_or(0);
        let version = random.below(100_000);
        write!(
            text,
            "build src/CMakeFiles/target{target:03}.dir/file{edge:05}.cpp.o: CXX /home/user/project/src/target{target:03}/file{edge:05}.cpp"
        )?;
        write!(
            text,
            " || src/target{target:03}/generated.h\n  DEFINES = -DQT_CORE_LIB -DQT_NO_DEBUG -DVERSION=\\\"{version}\\\"\n"
        )?;
        write!(
            text,
            "  DEP_FILE = src/CMakeFiles/target{target:03}.dir/file{edge:05}.cpp.o.d\n  FLAGS = -O2 -g -DNDEBUG -fPIC -std=gnu++17\n"
        )?;
        write!(
            text,
            "  INCLUDES = -I/home/user/project/src/target{target:03}/include -I/home/user/project/build/src/target{target:03} -isystem /usr/include/x86_64-linux-gnu/qt5\n"
        )?;
        text.push_str("  OBJECT_DIR = src/CMakeFiles/target.dir\n\n")?;
    }
    Ok(())
}

/// A file for each target of 25 edges.
fn put_gn(
    alloc: Global,
    site: &mut Sim<Toy>,
    edges: usize,
    random: &mut Random,
) -> Result<(), AllocError> {
    let mut text = String::from_str(alloc, GN)?;
    for target in 0..edges.checked_div(25).unwrap_or(0) {
        let path = format!(in alloc; "obj/part{target:03}/target.ninja")?;
        put_gn_target(alloc, site, path.as_str(), target, random)?;
        let path = path.as_str();
        write!(text, "subninja {path}\n")?;
    }
    site.put("build.ninja", text.as_bytes())
}

fn put_gn_target(
    alloc: Global,
    site: &mut Sim<Toy>,
    path: &str,
    target: usize,
    random: &mut Random,
) -> Result<(), AllocError> {
    let mut text = String::new(alloc);
    push_gn_target(target, random, &mut text)?;
    site.put(path, text.as_bytes())
}

fn push_gn_target(target: usize, random: &mut Random, text: &mut String) -> Result<(), AllocError> {
    let version = random.below(100_000);
    write!(
        text,
        "defines = -DUSE_AURA=1 -D_FORTIFY_SOURCE=2 -DVERSION=${{cxx}}{version}\n"
    )?;
    text.push_str(
        "include_dirs = -I../.. -Igen -I../../third_party/abseil-cpp -I../../third_party/googletest/src\n",
    )?;
    text.push_str(
        "cflags = -fno-strict-aliasing --param=ssp-buffer-size=4 -fstack-protector -m64 -O2 -g1 $\n  -Wall -Wextra\n",
    )?;
    text.push_str("cflags_cc = -std=c++20 -fno-exceptions -fno-rtti\n")?;
    write!(text, "target_output_name = target{target:03}\n\n")?;
    for file in 0..25_usize {
        write!(
            text,
            "build obj/part{target:03}/target/file{file:02}.o: cxx ../../part{target:03}/file{file:02}.cc || obj/part{target:03}/inputs.stamp\n"
        )?;
    }
    write!(text, "build obj/part{target:03}/target.stamp: stamp")?;
    for file in 0..25_usize {
        write!(text, " obj/part{target:03}/target/file{file:02}.o")?;
    }
    text.push('\n')
}

/// Edges of 400 inputs, as many as there are inputs as the other forms have edges, four times over.
fn put_long(
    alloc: Global,
    site: &mut Sim<Toy>,
    edges: usize,
    random: &mut Random,
) -> Result<(), AllocError> {
    let mut text = String::from_str(alloc, LONG)?;
    push_long(edges, random, &mut text)?;
    site.put("build.ninja", text.as_bytes())
}

fn push_long(edges: usize, random: &mut Random, text: &mut String) -> Result<(), AllocError> {
    for program in 0..edges.checked_div(100).unwrap_or(0) {
        write!(text, "build bin/program{program:03}: link")?;
        let first = random.below(edges);
        for place in 0..400_usize {
            let number = first.wrapping_add(place);
            let part = place.checked_div(20).unwrap_or(0);
            write!(
                text,
                " part{part:02}/CMakeFiles/target.dir/file_{number:06}.cpp.o"
            )?;
        }
        write!(
            text,
            " | lib/libbase{program:03}.a || bin\n  LINK_FLAGS = -rdynamic -Wl,-O1\n  LINK_PATH = -L/usr/local/lib\n"
        )?;
        text.push_str("  LINK_LIBRARIES = -lpthread -ldl -lz -Wl,-rpath,/usr/local/lib\n")?;
    }
    Ok(())
}

fn add_read(alloc: Global, site: &mut Sim<Toy>, digest: &mut Digest) -> Result<(), AllocError> {
    let options = Options {
        file: Text::from_str(alloc, "build.ninja")?,
        jobs: 1,
        keep: 1,
        verbose: false,
        pattern: Pattern::parse(alloc, Pattern::DEFAULT)?,
    };
    let outcome = read(alloc, site, &options, &[]);
    add_outcome(alloc, &outcome, digest)
}

/// Takes in what the build files declare, or why nothing was read.
fn add_outcome(
    alloc: Global,
    outcome: &Result<Reading<'_>, Report>,
    digest: &mut Digest,
) -> Result<(), AllocError> {
    match outcome {
        Ok(reading) => {
            digest.number(1);
            add_manifest(alloc, &reading.manifest, digest)
        }
        Err(report) => {
            digest.number(0);
            add_report(alloc, report, digest)
        }
    }
}

/// Takes in all that the build files declare.
fn add_manifest(alloc: Global, manifest: &Manifest, digest: &mut Digest) -> Result<(), AllocError> {
    add_paths(&manifest.paths, digest);
    digest.count(manifest.named);
    add_lines(manifest, digest);
    add_actions(alloc, manifest.actions.as_slice(), digest)?;
    add_pools(manifest.pools.as_slice(), digest);
    add_numbers(manifest.defaults.as_slice(), digest);
    digest.text(manifest.builddir.as_str());
    Ok(())
}

/// Takes in the texts of all paths, in the order of their numbers.
fn add_paths(paths: &Paths, digest: &mut Digest) {
    digest.count(paths.len());
    for place in 0..paths.len() {
        digest.text(text_at(paths, place));
    }
}

/// The text of the path with this number; none is empty.
fn text_at(paths: &Paths, place: usize) -> &str {
    match PathId::at(place) {
        Some(number) => paths.get(number).unwrap_or(""),
        None => "",
    }
}

/// Takes in the paths of all edges.
fn add_lines(manifest: &Manifest, digest: &mut Digest) {
    digest.count(manifest.lines.len());
    for place in 0..manifest.lines.len() {
        add_line(manifest, manifest.edge(place), digest);
    }
}

/// Takes in the paths of an edge, list by list.
fn add_line(manifest: &Manifest, edge: EdgeId, digest: &mut Digest)
    requires { edge < length manifest.now.lines }
{
    add_numbers(manifest.lines.explicit_outputs(edge), digest);
    add_numbers(manifest.lines.implicit_outputs(edge), digest);
    add_numbers(manifest.lines.explicit_inputs(edge), digest);
    add_numbers(manifest.lines.implicit_inputs(edge), digest);
    add_numbers(manifest.lines.order_only_inputs(edge), digest);
    add_numbers(manifest.lines.validations(edge), digest);
}

fn add_numbers(paths: &[PathId], digest: &mut Digest) {
    digest.count(paths.len());
    for path in paths {
        digest.count(path.index());
    }
}

/// Takes in what each edge does.
fn add_actions(alloc: Global, actions: &[Action], digest: &mut Digest) -> Result<(), AllocError> {
    digest.count(actions.len());
    for action in actions {
        match action {
            Action::Alias => digest.number(0),
            Action::Command(command) => {
                digest.number(1);
                add_command(alloc, command, digest)?;
            }
        }
    }
    Ok(())
}

fn add_command(alloc: Global, command: &Command, digest: &mut Digest) -> Result<(), AllocError> {
    add_act(alloc, &command.act, digest)?;
    digest.text(command.description.as_str());
    digest.number(match command.deps {
        Deps::Unset => 0,
        Deps::Gcc => 1,
    });
    digest.number(u64::from(command.restat));
    match &command.pool {
        Some(pool) => {
            digest.number(1);
            digest.text(pool.as_str());
        }
        None => digest.number(0),
    }
    match &command.dyndep {
        Some(path) => {
            digest.number(1);
            digest.count(path.index());
        }
        None => digest.number(0),
    }
    Ok(())
}

fn add_pools(pools: &[Pool], digest: &mut Digest) {
    digest.count(pools.len());
    for pool in pools {
        digest.text(pool.name.as_str());
        digest.number(u64::from(pool.depth));
    }
}
