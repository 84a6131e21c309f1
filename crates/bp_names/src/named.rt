ghost use Rattle.std.specs.Prelude.{◌≡◌, List, ℕ};

use bp_faults::{Item, Text};

/// What has a name.
pub trait Named {
    ghost name: { Self → List ℕ };

    fn name(&self) -> &str
        ensures { result.now ≡ name self.now };
}

impl Named for Text {
    ghost name = { λ text. text };

    fn name(&self) -> &str {
        self.as_str()
    }
}

impl Named for Item {
    ghost name = { λ item. item.text };

    fn name(&self) -> &str {
        self.text.as_str()
    }
}
