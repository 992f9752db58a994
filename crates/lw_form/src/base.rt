use crate::FormIds;

/// A base form: true, an input, or the And of some forms.
#[derive(PartialEq, Eq, Hash, Drop)]
pub enum Base {
    True,
    Input(u32),
    And(FormIds),
}
