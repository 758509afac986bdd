//! What a look at one clause finds, where some literals are known to be true.

/// Which literals of a clause aren't false.
#[derive(Clone, Copy)]
pub enum FreeLiterals {
    /// All literals are false.
    Nothing,
    /// This one alone isn't.
    One(u32),
    /// Two different ones aren't.
    Several,
}

/// What a look at a clause finds.
#[derive(Clone, Copy)]
pub enum Finding {
    /// All its literals are false.
    IsFalse,
    /// All its literals but this one are false, and this one is neither true nor false.
    Forces(u32),
    /// Neither: it isn't false, and what it forces is true.
    Rests,
}
