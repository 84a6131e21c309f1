/// Which targets of a class a module is built for, as `compile_multilib` says.
#[derive(Clone, Copy, Debug, PartialEq, Eq)]
pub enum Multi {
    Both,
    First,
    Only32,
    Only64,
}
