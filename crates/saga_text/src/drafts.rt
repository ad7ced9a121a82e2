//! A definition as it is written in a file.
ghost use Rattle.std.specs.Prelude.{◌≡◌, length};

use saga_def::{Step, Text};

/// A definition as it is written. `needs` has, for each step, the names of the steps that it needs.
#[derive(Drop)]
pub struct Draft<'a> {
    pub name: Text,
    pub steps: Vec<Step>,
    pub needs: Vec<Vec<&'a str>>,
    ghost paired: { length needs.items ≡ length steps.items },
}
