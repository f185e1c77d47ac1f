//! The numbers that the system gives processes.

ghost use Rattle.std.specs.Prelude.{◌≡◌, ◌<ℤ◌, pos, IfSome};

/// The number of a process that was started. A call that asks for it asks for no other and for no group.
#[derive(Clone, Copy)]
pub struct Number {
    pub value: i32,
    ghost positive: { pos 0 <ℤ value },
}

impl Number {
    /// The number, if a process can have it.
    pub fn new(value: i32) -> Option<Number>
        ensures { IfSome result (λ number. number.value ≡ value) }
    {
        if value <= 0 {
            return None;
        }
        Some(Number { value })
    }
}
