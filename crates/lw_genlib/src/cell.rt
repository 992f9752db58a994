use crate::{Expr, Exprs};
use lw_fixed::{Micro, Micros};
use lw_pool::{Name, Names};
use std::alloc::AllocError;
use std::marker::Model;

/// A cell of a library: its pins in the order in which they first stand in its first form, a delay
/// for each of them, and one form or more, which have one truth table.
#[derive(Drop)]
pub struct Cell {
    name: Name,
    area: Micro,
    output: Name,
    pins: Names,
    delays: Micros,
    forms: Exprs,
}

impl Model for Cell {
    ghost use Rattle.lw_genlib.specs.Cells.{CellParts, IsCell};
    ghost use Rattle.lw_genlib.specs.Codes.{cell_code};

    ghost Value = { CellParts };

    ghost coded = { cell_code };

    ghost view = { λ c. record {
      name = c.name;
      area = c.area;
      output = c.output;
      pins = c.pins;
      delays = c.delays;
      forms = c.forms;
    } };

    ghost invariant = { λ c. IsCell
        (record {
          name = c.name;
          area = c.area;
          output = c.output;
          pins = c.pins;
          delays = c.delays;
          forms = c.forms;
        }) };
}

impl Cell {
    ghost use Rattle.std.specs.Prelude.{◌≡◌, length, MatchResult};
    ghost use Rattle.lw_genlib.specs.Cells.{IsCell, IsForm, HaveOneTruth, cell_value};
    ghost use Rattle.lw_genlib.specs.Postfix.{first_expr};
    ghost use Rattle.lw_genlib.specs.Merging.{with_form};

    /// The cell of these parts, without memory.
    pub fn new(
        name: Name,
        area: Micro,
        output: Name,
        pins: Names,
        delays: Micros,
        forms: Exprs,
    ) -> Self
        requires { IsCell (record {
          name = name;
          area = area;
          output = output;
          pins = pins;
          delays = delays;
          forms = forms;
        }) }
        ensures { result ≡ record {
          name = name;
          area = area;
          output = output;
          pins = pins;
          delays = delays;
          forms = forms;
        } }
    {
        Cell {
            name,
            area,
            output,
            pins,
            delays,
            forms,
        }
    }

    /// The name.
    pub fn name(&self) -> &Name
        ensures { result.now ≡ self.now.name }
    {
        &self.name
    }

    /// The area.
    pub fn area(&self) -> Micro
        ensures { result ≡ self.now.area }
    {
        self.area
    }

    /// The name of the output.
    pub fn output(&self) -> &Name
        ensures { result.now ≡ self.now.output }
    {
        &self.output
    }

    /// The names of the pins.
    pub fn pins(&self) -> &[Name]
        ensures pins { result.now ≡ self.now.pins }
        ensures kept { IsCell self.now }
    {
        self.pins.as_slice()
    }

    /// The delay of each pin: the larger of its block delays.
    pub fn delays(&self) -> &[Micro]
        ensures delays { result.now ≡ self.now.delays }
        ensures kept { IsCell self.now }
    {
        self.delays.as_slice()
    }

    /// The forms.
    pub fn forms(&self) -> &[Expr]
        ensures forms { result.now ≡ self.now.forms }
        ensures kept { IsCell self.now }
    {
        self.forms.as_slice()
    }

    /// Adds a form with the truth table of the others.
    pub(crate) fn add_form(&mut self, form: Expr) -> Result<(), AllocError>
        requires form { IsForm (length self.old.pins) form }
        requires one_truth { HaveOneTruth (first_expr self.old.forms) form }
        ensures { MatchResult result (λ _. self.new ≡ with_form self.old form)
            (λ _. self.new ≡ self.old) }
    {
        self.forms.push(form)
    }

    /// The value at these values of the pins. It is that of each form.
    pub fn eval(&self, pins: &[bool]) -> bool
        requires { length pins.now ≡ length self.now.pins }
        ensures { result ≡ cell_value self.now pins.now }
    {
        self.forms()[0].value(pins)
    }
}
