ghost use Rattle.std.specs.Prelude.{◌≡◌};

use std::marker::Model;

/// The words of the cells of a heap, in order. Contracts see the list of the words.
#[derive(Drop)]
pub struct Cells {
    words: Vec<u64>,
}

impl Model for Cells {
    ghost use Rattle.std.specs.Prelude.{ℕ, List};

    ghost Value = { List ℕ };

    ghost view = { λ c. c.words.items };
}

impl Cells {
    /// The cells of these words.
    pub fn new(words: Vec<u64>) -> Cells
        ensures { result ≡ words.items }
    {
        Cells { words }
    }

    /// The words of the cells.
    pub fn words(&self) -> &[u64]
        ensures { result.now ≡ self.now }
    {
        self.words.as_slice()
    }
}
