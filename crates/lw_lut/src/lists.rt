// Lists of tables.
use crate::table::Table;
use std::marker::Model;

/// Tables in order.
#[derive(Drop)]
pub struct Tables {
    items: Vec<Table>,
}

impl Model for Tables {
    ghost use Rattle.std.specs.Prelude.{List};
    ghost use Rattle.lw_lut.specs.declared.table.Table.{Table};

    ghost Value = { List Table };

    ghost view = { λ l. l.items.items };
}

impl Tables {
    ghost use Rattle.std.specs.Prelude.{◌≡◌, length};

    /// The entries of a vector, without memory.
    pub fn from_vec(items: Vec<Table>) -> Self
        ensures { result ≡ items.items }
    {
        Tables { items }
    }

    /// How many tables there are.
    pub fn len(&self) -> usize
        ensures { result ≡ length self.now }
    {
        self.items.len()
    }

    /// The tables, in order.
    pub fn as_slice(&self) -> &[Table]
        ensures { result.now ≡ self.now }
    {
        &self.items
    }
}
