use bp_faults::{Seq, Target, Text};

/// Writes the file for Ninja, and the journal where it is asked for.
#[derive(Debug, Drop)]
pub struct Build {
    pub list: Text,
    pub out: Text,
    pub workers: u32,
    pub targets: Seq<Target>,
    pub journal: Option<Text>,
}

/// Writes the file for Ninja, visiting in the order that a file gives.
#[derive(Debug, Drop)]
pub struct Replay {
    pub list: Text,
    pub out: Text,
    pub order: Text,
    pub targets: Seq<Target>,
}

/// Shows the graph after the first mutators, as many as `after` says: 1 to 11.
#[derive(Debug, Drop)]
pub struct Graph {
    pub list: Text,
    pub after: u32,
    pub workers: u32,
    pub targets: Seq<Target>,
}

/// Runs the job over a synthetic tree.
#[derive(Debug, Drop)]
pub struct Synth {
    pub seed: u32,
    pub modules: u32,
    pub workers: u32,
}

/// Lays a file out anew. OUT may be the file itself.
#[derive(Debug, Drop)]
pub struct Format {
    pub file: Text,
    pub out: Text,
}

/// Sets a list property of the first module of a name. OUT may be the file itself.
#[derive(Debug, Drop)]
pub struct Edit {
    pub file: Text,
    pub out: Text,
    /// The name of the module.
    pub name: Text,
    pub property: Text,
    /// Without `--items` there are none.
    pub items: Seq<Text>,
}

/// What the words ask for. Defaults are filled in.
#[derive(Debug, Drop)]
pub enum Configuration {
    Build(Build),
    Replay(Replay),
    Graph(Graph),
    Synth(Synth),
    Format(Format),
    Edit(Edit),
}
