//! The parts of build statements: the paths of what is made, the values of variables, the kinds of sources and
//! their faults, and the rules of the head.
//!
//! Modules, nodes and sources flow in; paths, variables, rules and the fault of a source flow out. Each part has a
//! file that it is measured by: `specs/Paths.antt`, `specs/Variables.antt`, `specs/Sources.antt`, `specs/Head.antt`,
//! and `specs/Kept.antt` for lists in which no text is repeated.
#![tactic(auto)]

mod gather;
mod head;
mod line;
mod path;
mod sources;
mod variables;

pub use gather::{Views, add_texts, keep_first, one, push_some};
pub use head::head_rules;
pub use path::{
    Directory, Product, Role, directory_of, object_path, output_at, output_in, product_of, role_of,
};
pub use sources::{Language, SourceKind, check_sources, source_kind};
pub use variables::{compile_variables, link_variables};
