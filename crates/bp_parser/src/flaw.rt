/// What is wrong with the words of a file, and at which of them, from 0. Their number stands for the end.
#[derive(Clone, Copy)]
pub enum Flaw {
    Unexpected(usize),
    TooNested(usize),
    Duplicate(usize),
}
