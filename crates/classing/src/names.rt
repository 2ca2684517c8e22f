// Words that stand for one of a few things.

// A word that names none of them.
#[derive(Clone, Copy)]
pub(crate) struct NotAName;
