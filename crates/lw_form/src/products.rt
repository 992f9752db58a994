// Sums of products, over numbers of a table.
ghost use Rattle.std.specs.Prelude.{◌≡◌, map, length, IfOk};
ghost use Rattle.lw_laws.specs.Forms.{conjunction as and_of_forms};
ghost use Rattle.lw_laws.specs.Signals.{sum_of_products as sum_of_forms, literals as literals_of};
ghost use Rattle.lw_net.specs.Signs.{asked};
ghost use Rattle.lw_form.specs.Products.{signed_number, literal_numbers, AreRowsOver};
ghost use Rattle.lw_form.specs.Tables.{made, forms_at, AreBelow, IsMadeAs, AreMadeAs};

use crate::maker::Fanins;
use crate::row::{Row, ask};
use crate::table::FormTable;
use smallvec::SmallVec;
use std::alloc::{AllocError, Global};

// The form, or its complement.
pub(crate) fn signed(form: u32, sign: bool) -> u32
    ensures { result ≡ signed_number sign form }
{
    if sign { form } else { form ^ 1 }
}

// The literals of a row in column order.
fn literals(alloc: Global, fanins: &[u32], signs: &[u8]) -> Result<SmallVec<u32, 8>, AllocError>
    requires { length signs.now ≡ length fanins.now }
    ensures { IfOk result (λ literals. literals.items
        ≡ literal_numbers fanins.now (map asked signs.now)) }
{
    let mut literals = SmallVec::new(alloc);
    for column in 0..signs.len() {
        match ask(signs[column]) {
            Some(sign) => literals.push(signed(fanins[column], sign))?,
            None => {}
        }
    }
    Ok(literals)
}

impl<'a> Fanins<'a> {
    /// The And of a row's literals.
    pub(crate) fn product(&self, table: &mut FormTable, signs: &[u8]) -> Result<u32, AllocError>
        requires fanins { AreBelow (length (made table.old)) self.now.forms.now }
        requires columns { length signs.now ≡ length self.now.forms.now }
        ensures { IfOk result (λ form. IsMadeAs table.old table.new form
            (and_of_forms self.now.maker.now.width (literals_of
            (forms_at (made table.old) self.now.forms.now) (map asked signs.now)))) }
    {
        let _count = table.len();
        let literals = literals(self.maker.alloc, self.forms, signs)?;
        self.maker.conjunction(table, &literals)
    }

    // The Ands of the rows' literals.
    fn cubes(&self, table: &mut FormTable, rows: &[Row]) -> Result<SmallVec<u32, 8>, AllocError>
        requires { AreRowsOver self.now table.old rows.now }
        ensures { IfOk result (λ cubes. AreMadeAs table.old table.new cubes.items
            (map (λ row. and_of_forms self.now.maker.now.width (literals_of
            (forms_at (made table.old) self.now.forms.now) row)) rows.now)) }
    {
        let mut cubes = SmallVec::new(self.maker.alloc);
        for row in rows {
            cubes.push(self.product(table, row.as_slice())?)?;
        }
        Ok(cubes)
    }

    /// The Or of the Ands of the rows' literals.
    pub(crate) fn sum_of_products(
        &self,
        table: &mut FormTable,
        rows: &[Row],
    ) -> Result<u32, AllocError>
        requires { AreRowsOver self.now table.old rows.now }
        ensures { IfOk result (λ form. IsMadeAs table.old table.new form
            (sum_of_forms self.now.maker.now.width
            (forms_at (made table.old) self.now.forms.now) rows.now)) }
    {
        let cubes = self.cubes(table, rows)?;
        self.maker.disjunction(table, &cubes)
    }
}
