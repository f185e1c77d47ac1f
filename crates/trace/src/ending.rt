//! How a call ended.

ghost use Rattle.std.specs.Prelude.{◌≡◌};
ghost use Rattle.trace.specs.Calls.{ending_of, is_missing, is_open, is_void, is_well};

/// How a call ended.
#[derive(Clone, Copy, Debug, PartialEq, Eq)]
pub enum End {
    /// It did what it does.
    Well,
    /// Nothing is there by that path.
    Missing,
    /// It was refused for another reason.
    Refused,
    /// It was asked wrongly, is made anew, or the system has no such call: it said nothing to the process that called.
    Void,
    /// Its process ended in it. Whether it did something is open.
    Open,
}

impl End {
    pub fn is_well(self) -> bool
        ensures { result ≡ is_well self }
    {
        matches!(self, End::Well)
    }

    pub fn is_missing(self) -> bool
        ensures { result ≡ is_missing self }
    {
        matches!(self, End::Missing)
    }

    pub fn is_void(self) -> bool
        ensures { result ≡ is_void self }
    {
        matches!(self, End::Void)
    }

    pub fn is_open(self) -> bool
        ensures { result ≡ is_open self }
    {
        matches!(self, End::Open)
    }
}

/// How a call ended, by what stands behind the sign of equality.
#[tactic(auto, unfolding(crate::specs::Calls::ending_of))]
pub fn ending_of(answer: &[u8]) -> End
    ensures { result ≡ ending_of answer.now }
{
    if answer.starts_with(b"-1 ENOENT ") || answer.starts_with(b"-1 ENOTDIR ") {
        return End::Missing;
    }
    if answer.starts_with(b"-1 EFAULT ")
        || answer.starts_with(b"-1 EBADF ")
        || answer.starts_with(b"-1 ENOSYS ")
    {
        return End::Void;
    }
    if answer.starts_with(b"-1 ") {
        return End::Refused;
    }
    if answer.starts_with(b"? ERESTART") {
        return End::Void;
    }
    if answer.starts_with(b"?") {
        return End::Open;
    }
    End::Well
}
