//! The limits of a tree and of what is made of it. Each line says what is counted, and the fault beyond.

/// Bytes of the list file; beyond them it is too large (32).
pub const LARGEST_LIST_FILE: u64 = 4_194_304;

/// Bytes of one Android.bp file; beyond them it is too large (32).
pub const LARGEST_FILE: u64 = 1_048_576;

/// Bytes of the order file; beyond them it is too large (32).
pub const LARGEST_ORDER_FILE: u64 = 67_108_864;

/// Bytes of all Android.bp files together; beyond them there are too many `bytes` (30).
pub const LARGEST_TREE: usize = 67_108_864;

/// Android.bp files of a tree; beyond them there are too many `files` (30).
pub const MOST_FILES: usize = 16_384;

/// Brackets that are open at once, and the depth of a map value; beyond it is nested too deeply (8).
pub const DEEPEST_NESTING: usize = 64;

/// Bytes of a string value; beyond them it is too long, a `string` (30).
pub const LONGEST_STRING: usize = 1_048_576;

/// Items of a list value; beyond them there are too many, a `list` (30).
pub const MOST_LIST_ITEMS: usize = 65_536;

/// Modules of a tree; beyond them there are too many `modules` (30).
pub const MOST_MODULES: usize = 131_072;

/// Bytes of a module's name, of which there is at least one; beyond them it is a bad module name (19).
pub const LONGEST_MODULE_NAME: usize = 255;

/// Nodes of one graph; beyond them there are too many `variants` (30).
pub const MOST_NODES: usize = 262_144;

/// Edges of one graph; beyond them there are too many `edges` (30).
pub const MOST_EDGES: usize = 4_194_304;

/// Entries of one node's link line, include directories or shared libraries; beyond them 29.
pub const LONGEST_LINE: usize = 1_024;

/// Bytes of the text that is written; beyond them the output is too large (34).
pub const LARGEST_OUTPUT: usize = 536_870_912;

/// Workers at once, of which there is at least one; beyond them the command line is wrong.
pub const MOST_WORKERS: u32 = 64;

/// Modules of a synthetic tree, of which there is at least one; beyond them the command line is wrong.
pub const MOST_SYNTHETIC_MODULES: u32 = 100_000;
