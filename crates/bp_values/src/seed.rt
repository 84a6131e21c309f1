use std::hash::{BuildHasher, DefaultHasher};

/// The hasher that names are written to, so that they are found in a table.
///
/// A caller has it read the text of all files. So whoever changes a name to make it collide with another
/// changes the seed too. No answer depends on it.
#[derive(Clone, Copy)]
pub struct Seed {
    pub hasher: DefaultHasher,
}

impl BuildHasher for Seed {
    type Hasher = DefaultHasher;

    ghost build_hasher = { λ seed. seed.hasher };

    fn build_hasher(&self) -> DefaultHasher {
        self.hasher
    }
}
