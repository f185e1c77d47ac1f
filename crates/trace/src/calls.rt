//! The calls of the system of which it is known what they do to files.

ghost use Rattle.std.specs.Prelude.{◌≡◌};
ghost use Rattle.trace.specs.Calls.{begins_one, changes, changes_at, connects, follows_links, goes, has_two, is_of_folders, leads, links, lists, looks, looks_at, makes, marks, moves_at, opens, opens_at, passes, peeks, row_of_change, row_of_look, row_of_process, row_of_two, row_named, runs, starts, when};

/// What a call does.
#[derive(Clone, Copy, Debug, PartialEq, Eq)]
pub enum Does {
    /// It asks for a file: whether it is there, what it is, or what belongs to it beside its content and its stamp.
    Looks,
    /// The same of what stands at the path itself, be that a link.
    Peeks,
    /// It opens a file.
    Opens,
    /// It makes a file that is empty, or empties one.
    Creates,
    /// It runs a file.
    Runs,
    /// The process goes to a folder.
    Goes,
    /// It lists a folder.
    Lists,
    /// It makes a folder.
    Folders,
    /// It removes a folder.
    Clears,
    /// It removes a file.
    Removes,
    /// It gives a file another path.
    Moves,
    /// It gives a file one more path.
    Links,
    /// It makes a file that leads to the path of its first argument.
    Leads,
    /// It gives a file another length, and leaves what stands in front of that.
    Cuts,
    /// It gives a file that is open to be written another length.
    Empties,
    /// It sets the stamp of a file, or what belongs to it beside its content.
    Changes,
    /// The same of what stands at the path itself, be that a link.
    Marks,
    /// It starts a process.
    Starts,
    /// It connects to a server.
    Connects,
    /// It does nothing that counts here.
    Passes,
}

/// How a call names a path.
#[derive(Clone, Copy, Debug, PartialEq, Eq)]
pub enum Form {
    /// By a name, taken from the folder of the process.
    Name,
    /// By a descriptor of a folder, and a name taken from there.
    At,
    /// By a descriptor.
    Opened,
}

impl Does {
    /// Whether its first argument is no path of a file that it works on.
    pub fn leads(self) -> bool
        ensures { result ≡ leads self }
    {
        matches!(self, Does::Leads)
    }

    /// Whether it gives a file one more path.
    pub fn links(self) -> bool
        ensures { result ≡ links self }
    {
        matches!(self, Does::Links)
    }

    /// Whether it works on two paths.
    pub fn has_two(self) -> bool
        ensures { result ≡ has_two self }
    {
        matches!(self, Does::Moves | Does::Links)
    }

    /// Whether what stands at its path is a folder, where it ends well.
    pub fn is_of_folders(self) -> bool
        ensures { result ≡ is_of_folders self }
    {
        matches!(self, Does::Goes | Does::Clears)
    }

    pub fn runs(self) -> bool
        ensures { result ≡ runs self }
    {
        matches!(self, Does::Runs)
    }

    /// Whether what a link leads to that stands at the path is meant, where the call says nothing else.
    pub fn follows(self) -> bool
        ensures { result ≡ follows_links self }
    {
        matches!(
            self,
            Does::Looks
                | Does::Opens
                | Does::Creates
                | Does::Runs
                | Does::Goes
                | Does::Cuts
                | Does::Changes
        )
    }

    pub fn opens(self) -> bool
        ensures { result ≡ opens self }
    {
        matches!(self, Does::Opens)
    }

    pub fn goes(self) -> bool
        ensures { result ≡ goes self }
    {
        matches!(self, Does::Goes)
    }

    pub fn begins_one(self) -> bool
        ensures { result ≡ begins_one self }
    {
        matches!(self, Does::Starts)
    }

    pub fn connects(self) -> bool
        ensures { result ≡ connects self }
    {
        matches!(self, Does::Connects)
    }

    pub fn passes(self) -> bool
        ensures { result ≡ passes self }
    {
        matches!(self, Does::Passes)
    }
}

/// What is known of a call by its name.
#[derive(Clone, Copy, Debug, PartialEq, Eq)]
pub struct Row {
    pub does: Does,
    pub form: Form,
}

/// The row, where this is so.
fn when(is: bool, does: Does, form: Form) -> Option<Row>
    ensures { result ≡ when is does form }
{
    is.then_some(Row { does, form })
}

/// What is known of the call with this name. Of others it is not known what they do.
#[tactic(auto, unfolding(crate::specs::Calls::row_named))]
pub fn row_named(name: &str) -> Option<Row>
    ensures { result ≡ row_named name.now }
{
    row_of_look(name)
        .or(row_of_change(name))
        .or(row_of_two(name))
        .or(row_of_process(name))
}

/// Calls that look.
#[tactic(auto, unfolding(crate::specs::Calls::row_of_look))]
fn row_of_look(name: &str) -> Option<Row>
    ensures { result ≡ row_of_look name.now }
{
    when(looks(name), Does::Looks, Form::Name)
        .or(when(peeks(name), Does::Peeks, Form::Name))
        .or(when(name == "readlinkat", Does::Peeks, Form::At))
        .or(when(looks_at(name), Does::Looks, Form::At))
        .or(when(name == "open", Does::Opens, Form::Name))
        .or(when(opens_at(name), Does::Opens, Form::At))
        .or(when(lists(name), Does::Lists, Form::Opened))
}

/// Calls that change one file.
#[tactic(auto, unfolding(crate::specs::Calls::row_of_change))]
fn row_of_change(name: &str) -> Option<Row>
    ensures { result ≡ row_of_change name.now }
{
    when(makes(name), Does::Creates, Form::Name)
        .or(when(name == "mknodat", Does::Creates, Form::At))
        .or(when(name == "truncate", Does::Cuts, Form::Name))
        .or(when(name == "ftruncate", Does::Empties, Form::Opened))
        .or(when(changes(name), Does::Changes, Form::Name))
        .or(when(marks(name), Does::Marks, Form::Name))
        .or(when(changes_at(name), Does::Changes, Form::At))
        .or(when(name == "mkdir", Does::Folders, Form::Name))
        .or(when(name == "mkdirat", Does::Folders, Form::At))
        .or(when(name == "rmdir", Does::Clears, Form::Name))
        .or(when(name == "unlink", Does::Removes, Form::Name))
        .or(when(name == "unlinkat", Does::Removes, Form::At))
}

/// Calls that name two paths.
#[tactic(auto, unfolding(crate::specs::Calls::row_of_two))]
fn row_of_two(name: &str) -> Option<Row>
    ensures { result ≡ row_of_two name.now }
{
    when(name == "rename", Does::Moves, Form::Name)
        .or(when(moves_at(name), Does::Moves, Form::At))
        .or(when(name == "link", Does::Links, Form::Name))
        .or(when(name == "linkat", Does::Links, Form::At))
        .or(when(name == "symlink", Does::Leads, Form::Name))
        .or(when(name == "symlinkat", Does::Leads, Form::At))
}

/// Calls of processes.
#[tactic(auto, unfolding(crate::specs::Calls::row_of_process))]
fn row_of_process(name: &str) -> Option<Row>
    ensures { result ≡ row_of_process name.now }
{
    when(name == "execve", Does::Runs, Form::Name)
        .or(when(name == "execveat", Does::Runs, Form::At))
        .or(when(name == "chdir", Does::Goes, Form::Name))
        .or(when(name == "fchdir", Does::Goes, Form::Opened))
        .or(when(starts(name), Does::Starts, Form::Name))
        .or(when(name == "connect", Does::Connects, Form::Opened))
        .or(when(name == "getcwd", Does::Passes, Form::Name))
}

fn looks(name: &str) -> bool
    ensures { result ≡ looks name.now }
{
    matches!(
        name,
        "stat" | "access" | "statfs" | "getxattr" | "listxattr" | "chmod" | "chown"
    )
}

fn peeks(name: &str) -> bool
    ensures { result ≡ peeks name.now }
{
    matches!(
        name,
        "lstat" | "readlink" | "lgetxattr" | "llistxattr" | "lchown"
    )
}

fn looks_at(name: &str) -> bool
    ensures { result ≡ looks_at name.now }
{
    matches!(
        name,
        "newfstatat"
            | "statx"
            | "faccessat"
            | "faccessat2"
            | "fchmodat"
            | "fchmodat2"
            | "fchownat"
            | "name_to_handle_at"
    )
}

fn opens_at(name: &str) -> bool
    ensures { result ≡ opens_at name.now }
{
    matches!(name, "openat" | "openat2")
}

fn lists(name: &str) -> bool
    ensures { result ≡ lists name.now }
{
    matches!(name, "getdents" | "getdents64")
}

fn makes(name: &str) -> bool
    ensures { result ≡ makes name.now }
{
    matches!(name, "creat" | "mknod")
}

fn changes(name: &str) -> bool
    ensures { result ≡ changes name.now }
{
    matches!(name, "utime" | "utimes" | "setxattr" | "removexattr")
}

fn marks(name: &str) -> bool
    ensures { result ≡ marks name.now }
{
    matches!(name, "lsetxattr" | "lremovexattr")
}

fn changes_at(name: &str) -> bool
    ensures { result ≡ changes_at name.now }
{
    matches!(name, "utimensat" | "futimesat")
}

fn moves_at(name: &str) -> bool
    ensures { result ≡ moves_at name.now }
{
    matches!(name, "renameat" | "renameat2")
}

fn starts(name: &str) -> bool
    ensures { result ≡ starts name.now }
{
    matches!(name, "fork" | "vfork" | "clone" | "clone3")
}
