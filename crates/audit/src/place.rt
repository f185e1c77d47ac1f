//! What a path is to a command.

ghost use Rattle.std.specs.Prelude.{◌≡◌};
ghost use Rattle.model.specs.Graph.{has};
ghost use Rattle.audit.specs.Places.{place_of};

use paths::Paths;

/// The paths of an edge, each list as a table, so that a path is found in it at once. All of them are whole: they begin at the root, and
/// are canonical.
#[derive(Drop)]
pub struct Lists {
    pub outputs: Paths,
    /// Its depfile and its response file.
    pub sides: Paths,
    /// The inputs that its command may read without a word: its explicit and implicit ones, through phony edges.
    pub inputs: Paths,
    pub order_only: Paths,
    /// What its command told in its depfile.
    pub reported: Paths,
    /// Whether its command may leave an output as it was.
    pub restat: bool,
}

/// What a path is to the build, apart from an edge.
#[derive(Clone, Copy)]
pub struct Around {
    /// Another edge makes it.
    pub made: bool,
    /// That edge is above this one.
    pub above: bool,
    /// A build line names it.
    pub named: bool,
    /// A record in force names it as an output.
    pub recorded: bool,
    /// It is below the folder of the build.
    pub inside: bool,
    /// It is a file of the program's own.
    pub own: bool,
    /// It is one of the scratch files that stand below a folder for these.
    pub scratch: bool,
    /// It may have stood there before the command began, as one of these.
    pub left: bool,
    /// It leads to a plain file that is not empty.
    pub filled: bool,
}

/// What a path is to a command.
#[derive(Clone, Copy)]
pub struct Place {
    pub output: bool,
    pub side: bool,
    pub input: bool,
    pub order_only: bool,
    pub reported: bool,
    pub restat: bool,
    pub around: Around,
}

/// What this path is to the command of the edge with these lists. It takes a time that does not grow with them.
pub fn place_of(lists: &Lists, around: Around, path: &str) -> Place
    ensures { result ≡ place_of lists.now around path.now }
{
    Place {
        output: has(&lists.outputs, path),
        side: has(&lists.sides, path),
        input: has(&lists.inputs, path),
        order_only: has(&lists.order_only, path),
        reported: has(&lists.reported, path),
        restat: lists.restat,
        around,
    }
}

/// Whether the path is one of these.
fn has(paths: &Paths, path: &str) -> bool
    ensures { result ≡ has paths.now path.now }
{
    match paths.number_of(path) {
        Some(_) => true,
        None => false,
    }
}
