use bp_props::Module;
use mutator_rules::Config;
use pass_ways::Way;

/// What every pass is run with. Modules are lent to the graphs, and the way isn't.
#[derive(Drop)]
pub struct Workshop<'m, 'w, G> {
    pub mods: &'m [Module],
    pub config: &'m Config,
    pub way: Way<'w, G>,
}
